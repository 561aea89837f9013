ghost use Rattle.std.specs.Prelude.{◌≡◌, ◌↔◌, ◌≤◌, ℕ, None, Some, Ok, Err, true, length, is_some, IfOk, OnOk};
ghost use Rattle.vn_cells.specs.declared.world.World.{World};
ghost use Rattle.vn_cells.specs.keeping.Clean.{IsEachPrefixClean};
ghost use Rattle.vn_cells.specs.machine.Events.{IsValidEvent, is_built};
ghost use Rattle.vn_cells.specs.machine.Local.{lines_left, listing_at};
ghost use Rattle.vn_cells.specs.texts.Reports.{report_of};
ghost use Rattle.vn_cells.specs.machine.Step.{run};
ghost use Rattle.vn_kernel.specs.Machines.{IsLong, opened, spent, stepped};
ghost use Rattle.vn_kernel.specs.declared.kernel.StepFault.TheVariants.{Long as TooLong, NoMemory as Wanting};

use crate::events::happen;
use crate::listing::listing;
use crate::reading::remaining;
use crate::state::State;
use std::alloc::Global;
use std::marker::Model;
use vn_cells::{EVENTS_MAX, Event, History, IfRow, Report};
use vn_laws::{law_of_clean_histories, law_of_unread_histories};
use vn_types::{List, NoMemory, Path};

/// Why an event could not happen.
#[derive(Drop)]
pub enum StepFault {
    /// Want of memory. The kernel is spent: it has its events and no world any more.
    NoMemory,
    /// The history has so many events, and no room for another.
    Long(u64),
}

impl From<NoMemory> for StepFault {
    ghost from_gives = { λ _ fault. fault ≡ Wanting };

    fn from(_: NoMemory) -> StepFault {
        StepFault::NoMemory
    }
}

/// Jails, stacks and pairs, and the history that led to them.
#[derive(Drop)]
pub struct Kernel {
    state: State,
    history: History,
    spent: bool,
}

impl Model for Kernel {
    ghost use Rattle.vn_kernel.specs.Fields.{fields};
    ghost use Rattle.vn_kernel.specs.Machines.{IsHeld, Machine, kept};
    ghost use Rattle.vn_kernel.specs.Worlds.{world_of};

    ghost Value = { Machine };

    ghost view = { λ a. record {
      world = kept a.spent (world_of (fields a.state));
      events = a.history;
    } };

    ghost invariant = { λ a. IsHeld a.spent (fields a.state) a.history };
}

impl Kernel {
    /// The kernel of host alone, just constructed, with no event.
    pub fn new(alloc: Global) -> Result<Kernel, NoMemory>
        ensures opened { IfOk result (λ k. k ≡ opened) }
    {
        let state = State::new(alloc)?;
        Ok(Kernel {
            state,
            history: History::new(alloc),
            spent: false,
        })
    }

    /// Lets an event happen. The kernel is spent until it has.
    pub fn step(&mut self, event: Event) -> Result<(), StepFault>
        requires valid { IsValidEvent event }
        requires built { is_built event ≡ true }
        ensures done { OnOk result (self.new ≡ stepped event self.old) }
        ensures ran { OnOk result (self.new.world ≡ Some (run self.new.events)) }
        ensures clean { IsEachPrefixClean self.new.events }
        ensures long { (n : ℕ) → result ≡ Err (TooLong n) ↔ IsLong n self.old }
        ensures long_stays { (n : ℕ) → result ≡ Err (TooLong n) → self.new ≡ self.old }
        ensures spent { result ≡ Err Wanting → self.new ≡ spent self.old }
        ensures stays_spent { self.old.world ≡ None → result ≡ Err Wanting }
    {
        law_of_clean_histories();
        if self.spent {
            return Err(StepFault::NoMemory);
        }
        let events = self.history.len();
        if events >= EVENTS_MAX {
            return Err(StepFault::Long(events));
        }
        self.spent = true;
        happen(&mut self.state, &event)?;
        self.history.push(event)?;
        self.spent = false;
        Ok(())
    }

    /// How many lines are left to a lane's reader at a path, where it has one.
    pub fn remaining(&self, lane: u8, path: &Path) -> Option<u64>
        ensures { (w : World) → self.now.world ≡ Some w → result ≡ lines_left w lane path.now }
    {
        if self.spent {
            return None;
        }
        remaining(&self.state, lane, path)
    }

    /// The number of events.
    pub fn events(&self) -> u64
        ensures count { result ≡ length self.now.events }
        ensures most { result ≤ EVENTS_MAX }
    {
        self.history.len()
    }

    /// The events, oldest first.
    pub fn history(&self) -> &History
        ensures { result.now ≡ self.now.events }
    {
        &self.history
    }

    /// The interfaces at a path, in order of attachment (ifconfig(8), `-a`); none where nothing lives. A spent
    /// kernel answers want of memory.
    pub fn listing(&self, path: &Path) -> Result<Option<List<IfRow>>, NoMemory>
        ensures { IfOk result (λ r. (w : World) → self.now.world ≡ Some w → r ≡ listing_at w path.now) }
    {
        if self.spent {
            return Err(NoMemory);
        }
        listing(&self.state, path)
    }

    /// Ends the kernel, and gives what the run left. A spent kernel answers want of memory.
    pub fn finish(self) -> Result<Report, NoMemory>
        ensures report { IfOk result (λ r. r ≡ report_of self.events) }
        ensures clean { IsEachPrefixClean self.events }
        ensures standing { OnOk result (is_some self.world ≡ true) }
    {
        law_of_clean_histories();
        law_of_unread_histories();
        let Kernel {
            state,
            history,
            spent,
        } = self;
        if spent {
            return Err(NoMemory);
        }
        let sections = state.into_sections()?;
        Ok(Report {
            history,
            sections,
            opened: 0,
            kept: 0,
        })
    }
}
