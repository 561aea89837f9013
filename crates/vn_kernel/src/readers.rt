ghost use Rattle.std.specs.Prelude.{◌≡◌, ◌++◌, ◌∷◌, [], length, map, IfSome, OnOk};
ghost use Rattle.std.specs.Option.{is_some, option_map};
ghost use Rattle.vn_kernel.specs.Readers.{OpenReader, is_of, next_line, of_lane, read_on, without};

use std::alloc::Global;
use std::collections::{BTreeMap, VecDeque};
use std::marker::Model;
use vn_types::{NoMemory, Octets, Path};

/// A lane's open reader of a table.
#[derive(Drop)]
pub(crate) struct LaneReader {
    lane: u8,
    /// The lines that are left to it, first the next one.
    lines: VecDeque<Octets>,
    /// How many versions were retired, as the kernel counts them, when it was opened.
    since: u64,
}

impl Model for LaneReader {
    ghost use Rattle.vn_kernel.specs.Readers.{OpenReader};

    ghost Value = { OpenReader };

    ghost view = { λ a. record { lane = a.lane; lines = a.lines.items; since = a.since } };
}

/// The open readers of a path, in the order of their opening. A lane has one at most.
#[derive(Drop)]
pub(crate) struct LaneReaders {
    readers: Vec<LaneReader>,
}

impl Model for LaneReaders {
    ghost use Rattle.std.specs.Prelude.{List};
    ghost use Rattle.vn_kernel.specs.Readers.{OpenReader};

    ghost Value = { List OpenReader };

    ghost view = { λ a. a.readers.items };
}

/// The open readers by path.
pub(crate) type Readers = BTreeMap<Path, LaneReaders>;

impl LaneReader {
    /// A reader to which all of some lines are left.
    pub(crate) fn new(lane: u8, lines: Vec<Octets>, since: u64) -> LaneReader
        ensures { result ≡ record { lane = lane; lines = lines.items; since = since } }
    {
        LaneReader {
            lane,
            lines: VecDeque::from_vec(lines),
            since,
        }
    }

    fn is_of(&self, lane: u8) -> bool
        ensures { result ≡ is_of lane self.now }
    {
        self.lane == lane
    }
}

impl LaneReaders {
    /// No reader. Takes no memory.
    pub(crate) fn new(alloc: Global) -> LaneReaders
        ensures { result ≡ [] }
    {
        LaneReaders {
            readers: Vec::new(alloc),
        }
    }

    /// One reader more.
    pub(crate) fn open(&mut self, reader: LaneReader) -> Result<(), NoMemory>
        ensures { OnOk result (self.new ≡ self.old ++ reader ∷ []) }
    {
        self.readers.push(reader)?;
        Ok(())
    }

    /// The number of lines that are left to a lane's reader.
    pub(crate) fn remaining(&self, lane: u8) -> Option<u64>
        ensures { result ≡ option_map (λ (r : OpenReader). length r.lines) (of_lane lane self.now) }
    {
        lines_left(&self.readers, lane)
    }

    /// The next line of a lane's reader, which is left no more; none at its end.
    pub(crate) fn next(&mut self, lane: u8) -> Option<Option<Octets>>
        ensures line { result ≡ next_line lane self.old }
        ensures left { self.new ≡ map (read_on lane) self.old }
    {
        take_line(&mut self.readers, lane)
    }

    /// Closes a lane's reader, and tells whether it had one.
    pub(crate) fn close(&mut self, lane: u8) -> bool
        ensures had { result ≡ is_some (of_lane lane self.old) }
        ensures left { self.new ≡ without lane self.old }
    {
        let before = self.readers.len();
        self.readers.retain(|reader| !reader.is_of(lane));
        self.readers.len() < before
    }
}

/// The number of lines that are left to the first of some readers that is a lane's.
fn lines_left(readers: &[LaneReader], lane: u8) -> Option<u64>
    ensures { result ≡ option_map (λ (r : OpenReader). length r.lines) (of_lane lane readers.now) }
{
    let (first, rest) = readers.split_first()?;
    if first.is_of(lane) {
        return Some(first.lines.len() as u64);
    }
    lines_left(rest, lane)
}

/// The next line of the first of some readers that is a lane's; each that is loses its own.
fn take_line(readers: &mut [LaneReader], lane: u8) -> Option<Option<Octets>>
    ensures line { result ≡ next_line lane readers.old }
    ensures left { readers.new ≡ map (read_on lane) readers.old }
{
    let (first, rest) = readers.split_first_mut()?;
    let later = take_line(rest, lane);
    if first.is_of(lane) {
        return Some(first.lines.pop_front());
    }
    later
}
