ghost use Rattle.std.specs.Prelude.{◌≡◌, ℕ, ◌+◌, ◌*◌, ◌<◌, ◌≤◌, ◌==◌, ◌&&◌, ◌||◌, not, Bool, true, false, [], nat_lt, length, slice_index_or, OnOk, OnErr, IfSome, IfNone, IsTrue};
ghost use Rattle.std.specs.List.{list_any};
ghost use Rattle.vn_epair.specs.declared.line.Awaited.{Awaited as Entry};
ghost use Rattle.vn_epair.specs.declared.pair_row.TheConstants.{UNIT_MAX};
ghost use Rattle.vn_epair.specs.Pairs.{turn_of};
ghost use Rattle.vn_epair.specs.Line.{rank, is_ranked, place_in_order, IsInOrder, IsSettled};

use std::alloc::Global;
use std::marker::Model;
use vn_types::{HalfId, NoMemory, Sid, Side};

/// A half to which a frame comes, with the home and the unit of its pair.
#[derive(Clone, Copy)]
pub(crate) struct Awaited {
    pub(crate) home: Sid,
    pub(crate) unit: u32,
    pub(crate) half: HalfId,
}

/// The halves to which frames come, by home, unit and side. Only `reserve` takes memory.
#[derive(Drop)]
pub(crate) struct Line {
    /// The last one first, so that the next one is taken from the end.
    listed: Vec<Awaited>,
    room: usize,
}

impl Model for Line {
    ghost use Rattle.std.specs.Prelude.{◌+◌, ◌≤◌, length, vec_capacity};
    ghost use Rattle.vn_epair.specs.Line.{Halves, IsInOrder};

    ghost Value = { Halves };

    ghost view = { λ a. record { listed = a.listed.items; room = a.room } };

    ghost invariant = { λ a. IsInOrder a.listed.items
        × (length a.listed.items + a.room ≤ vec_capacity a.listed) };
}

impl Awaited {
    fn rank(&self) -> u64
        ensures { result ≡ rank self.now }
    {
        place_in_order(self.home, turn_of(self.unit, self.half.side))
    }
}

/// The place of a half among those of its home, by unit and then by side.
fn turn_of(unit: u32, side: Side) -> u64
    ensures turn { result ≡ turn_of unit side }
    ensures most { result < 8_589_934_592 }
{
    let side = match side {
        Side::A => 0,
        Side::B => 1,
    };
    u64::from(unit) * 2 + side
}

fn place_in_order(home: Sid, turn: u64) -> u64
    requires { turn < 8_589_934_592 }
    ensures { result ≡ place_in_order home.0 turn }
{
    u64::from(home.0) * 33_554_432 + turn
}

impl Line {
    pub(crate) fn new(alloc: Global) -> Line
        ensures { result ≡ record { listed = []; room = 0 } }
    {
        Line {
            listed: Vec::new(alloc),
            room: 0,
        }
    }

    /// Makes room for two halves more.
    pub(crate) fn reserve(&mut self) -> Result<(), NoMemory>
        ensures room { OnOk result (self.new ≡ record self.old { room = self.old.room + 2 }) }
        ensures kept { OnErr result (self.new ≡ self.old) }
    {
        let Some(room) = self.room.checked_add(2) else {
            return Err(NoMemory);
        };
        self.listed.reserve(room)?;
        self.room = room;
        Ok(())
    }

    /// Gives up the room of two halves.
    pub(crate) fn release(&mut self)
        requires { 2 ≤ self.old.room }
        ensures listed { self.new.listed ≡ self.old.listed }
        ensures room { self.new.room + 2 ≡ self.old.room }
    {
        self.room -= 2;
    }

    /// Lists a half that is not listed.
    fn put(&mut self, new: Awaited)
        requires room { 0 < self.old.room }
        requires other { list_any (is_ranked (rank new)) self.old.listed ≡ false }
        ensures listed { (test : Entry → Bool)
            → list_any test self.new.listed ≡ (test new || list_any test self.old.listed) }
        ensures room { self.new.room + 1 ≡ self.old.room }
    {
        let place = count_behind(&self.listed, new.rank());
        self.room -= 1;
        let Ok(()) = self.listed.insert(place, new) else {
            unreachable!()
        };
    }

    /// Takes out a half that is listed.
    fn remove(&mut self, old: Awaited)
        requires listed { list_any (is_ranked (rank old)) self.old.listed ≡ true }
        ensures others { (test : Entry → Bool)
            → list_any test self.new.listed
            ≡ list_any (λ (e : Entry). test e && not (is_ranked (rank old) e)) self.old.listed }
        ensures room { self.new.room ≡ self.old.room + 1 }
    {
        let behind = count_behind(&self.listed, old.rank());
        self.listed.remove(behind - 1);
        self.room += 1;
    }

    /// Lists a half exactly where a frame comes to it.
    pub(crate) fn settle(&mut self, half: Awaited, was_quiet: bool, is_quiet: bool)
        requires listed { list_any (is_ranked (rank half)) self.old.listed ≡ not was_quiet }
        requires room { IsTrue was_quiet → 0 < self.old.room }
        ensures { IsSettled half was_quiet is_quiet self.old self.new }
    {
        match (was_quiet, is_quiet) {
            (true, false) => self.put(half),
            (false, true) => self.remove(half),
            _ => (),
        }
    }

    /// The first half of a home.
    pub(crate) fn first_of(&self, home: Sid) -> Option<Awaited>
        requires { list_any (λ (e : Entry). nat_lt UNIT_MAX e.unit) self.now.listed ≡ false }
        ensures home { IfSome result (λ r. r.home ≡ home) }
        ensures listed { IfSome result (λ r. (test : Entry → Bool)
            → test r ≡ true → list_any test self.now.listed ≡ true) }
        ensures first { IfSome result (λ r. list_any
            (λ (e : Entry). (e.home.0 == home.0) && nat_lt (rank e) (rank r)) self.now.listed ≡ false) }
        ensures none { IfNone result
            (list_any (λ (e : Entry). e.home.0 == home.0) self.now.listed ≡ false) }
    {
        let behind = count_behind(&self.listed, place_in_order(home, 0));
        if behind == 0 {
            return None;
        }
        let first = &self.listed[behind - 1];
        if first.home != home {
            return None;
        }
        Some(*first)
    }
}

/// The number of halves that stand at a place in the order or behind it.
fn count_behind(listed: &[Awaited], place: u64) -> usize
    requires { IsInOrder listed.now }
    ensures within { result ≤ length listed.now }
    ensures behind { (k : ℕ) (d : Entry) → k < result
        → place ≤ rank (slice_index_or listed.now k d) }
    ensures before { (k : ℕ) (d : Entry) → result ≤ k → k < length listed.now
        → rank (slice_index_or listed.now k d) < place }
{
    listed.partition_point(|half| half.rank() >= place)
}
