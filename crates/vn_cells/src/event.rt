ghost use Rattle.vn_cells.specs.machine.Bounds.{is_half};
ghost use Rattle.vn_cells.specs.machine.Events.{is_at_path, is_built, is_lane, is_valid_event};
ghost use Rattle.vn_cells.specs.world.Names.{is_path};
ghost use Rattle.std.specs.Prelude.{◌≡◌, ◌&&◌, [], ◌++◌, ◌∷◌, length, IfOk, OnOk, OnErr};

use crate::bounds::{is_unit, is_wait};
use crate::command::Command;
use crate::listing::Table;
use std::alloc::Global;
use std::marker::Model;
use vn_types::{Half, List, NoMemory, Path};

/// The most events that a run may have.
pub const EVENTS_MAX: u64 = 200_000;

/// One event of the machine.
#[derive(Drop)]
pub enum Event {
    /// The clock moves on by so many milliseconds.
    Tick(u64),
    /// A command that a lane runs at a path.
    Cmd {
        lane: u8,
        path: Path,
        command: Command,
    },
    /// The first frame to a half is received where the half stands.
    Deliver(Half),
    /// The first datagram that a stack queued to itself is received.
    LoopDeliver(Path),
    /// The first due timer of a stack fires.
    Fire(Path),
    /// A lane opens a reader of a table.
    Open {
        lane: u8,
        path: Path,
        table: Table,
    },
    /// A lane's reader gives the next line.
    Next {
        lane: u8,
        path: Path,
    },
    /// A lane's reader is closed.
    Close {
        lane: u8,
        path: Path,
    },
}

/// The events that happened, oldest first.
#[derive(Drop)]
pub struct History {
    events: List<Event>,
}

impl Model for History {
    ghost use Rattle.std.specs.Prelude.{List};
    ghost use Rattle.vn_cells.specs.declared.event.Event.{Event};

    ghost Value = { List Event };

    ghost view = { λ a. a.events };
}

/// Whether a lane has the number.
fn is_lane(number: u8) -> bool
    ensures { result ≡ is_lane number }
{
    1 <= number && number <= 8
}

/// Whether a path has at most 8 labels.
#[tactic(auto, unfolding(vn_types::specs::Paths::is_path))]
pub(crate) fn is_path(path: &Path) -> bool
    ensures { result ≡ is_path path.now }
{
    path.depth() <= 8
}

/// Whether a lane has the number, and a path at most 8 labels.
pub(crate) fn is_at_path(lane: u8, path: &Path) -> bool
    ensures { result ≡ is_at_path lane path.now }
{
    is_lane(lane) && is_path(path)
}

/// Whether a half has a home and a unit within their bounds.
fn is_half(half: &Half) -> bool
    ensures { result ≡ is_half half.now }
{
    is_path(&half.home) && is_unit(half.unit)
}

fn copy_half(half: &Half) -> Result<Half, NoMemory>
    ensures { IfOk result (λ h. h ≡ half.now) }
{
    Ok(Half {
        home: half.home.copy()?,
        unit: half.unit,
        side: half.side,
    })
}

impl Event {
    /// Whether the event can happen: whether its lane, its paths and its numbers are within their bounds.
    #[tactic(auto, unfolding(crate::specs::machine::Events::is_valid_event))]
    pub fn is_valid(&self) -> bool
        ensures { result ≡ is_valid_event self.now }
    {
        match self {
            Event::Tick(milliseconds) => is_wait(*milliseconds),
            Event::Cmd {
                lane,
                path,
                command,
            } => is_at_path(*lane, path) && command.is_valid(path),
            Event::Deliver(half) => is_half(half),
            Event::LoopDeliver(path) | Event::Fire(path) => is_path(path),
            Event::Open {
                lane,
                path,
                table: _,
            }
            | Event::Next { lane, path }
            | Event::Close { lane, path } => is_at_path(*lane, path),
        }
    }

    /// Whether the program runs it so far.
    #[tactic(auto, unfolding(crate::specs::machine::Events::is_built))]
    pub fn is_built(&self) -> bool
        ensures { result ≡ is_built self.now }
    {
        match self {
            Event::Cmd {
                lane: _,
                path: _,
                command,
            } => command.is_built(),
            _ => false,
        }
    }

    /// The same event once more.
    pub fn copy(&self) -> Result<Event, NoMemory>
        ensures { IfOk result (λ e. e ≡ self.now) }
    {
        Ok(match self {
            Event::Tick(milliseconds) => Event::Tick(*milliseconds),
            Event::Cmd {
                lane,
                path,
                command,
            } => Event::Cmd {
                lane: *lane,
                path: path.copy()?,
                command: command.copy()?,
            },
            Event::Deliver(half) => Event::Deliver(copy_half(half)?),
            Event::LoopDeliver(path) => Event::LoopDeliver(path.copy()?),
            Event::Fire(path) => Event::Fire(path.copy()?),
            Event::Open { lane, path, table } => Event::Open {
                lane: *lane,
                path: path.copy()?,
                table: *table,
            },
            Event::Next { lane, path } => Event::Next {
                lane: *lane,
                path: path.copy()?,
            },
            Event::Close { lane, path } => Event::Close {
                lane: *lane,
                path: path.copy()?,
            },
        })
    }
}

impl History {
    /// The history in which nothing happened. Takes no memory.
    pub fn new(alloc: Global) -> History
        ensures { result ≡ [] }
    {
        History {
            events: List::new(alloc),
        }
    }

    /// Puts an event at the end.
    pub fn push(&mut self, event: Event) -> Result<(), NoMemory>
        ensures ok { OnOk result (self.new ≡ self.old ++ event ∷ []) }
        ensures err { OnErr result (self.new ≡ self.old) }
    {
        self.events.push(event)
    }

    /// The number of events.
    pub fn len(&self) -> u64
        ensures { result ≡ length self.now }
    {
        self.events.len() as u64
    }

    /// The events, oldest first.
    pub fn events(&self) -> &[Event]
        ensures { result.now ≡ self.now }
    {
        self.events.as_slice()
    }

    /// The same history once more.
    pub fn copy(&self) -> Result<History, NoMemory>
        ensures { IfOk result (λ h. h ≡ self.now) }
    {
        let mut events = List::new(self.events.allocator());
        for event in self.events.as_slice() {
            let copy = event.copy()?;
            events.push(copy)?;
        }
        Ok(History { events })
    }
}
