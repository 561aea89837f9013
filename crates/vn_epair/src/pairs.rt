ghost use Rattle.std.specs.Prelude.{◌≡◌, ◌≢◌, ℕ, ◌+◌, ◌++◌, ◌∷◌, ◌↔◌, ◌<◌, ◌≤◌, ◌^◌, [], true, false, Some, None, IsSome, IsNone, OnOk, OnErr, IfOk, IfSome, IfNone, drop, length, slice_get};
ghost use Rattle.std.specs.List.{list_any};
ghost use Rattle.vn_types.specs.Interfaces.{other_side};
ghost use Rattle.vn_types.specs.PerStack.{ChangesOnly};
ghost use Rattle.vn_types.specs.Refusals.{IsRefusedBy};
ghost use Rattle.vn_epair.specs.declared.pair_row.TheConstants.{UNIT_MAX};
ghost use Rattle.vn_epair.specs.Pairs.{coming_to, create_refusal, emptied, new_pair, half_of, is_named, is_unit_free, of, pair_of, send_refusal, with_coming, with_end, HasFree, IsAllQuiet, IsLowestFree, IsNextQueued};

mod halves;

use crate::line::{Awaited, Line};
use crate::name_index::NameIndex;
use crate::pair_row::{PairRow, UNIT_MAX};
use bytes::Bytes;
use std::alloc::Global;
use std::marker::Model;
use vn_types::{Errno, HalfId, IfName, Mac, NoMemory, Reply, Sid, Side, Standing};

/// All pairs, seen as a list by their numbers, which are given once. Only `create` takes memory.
#[derive(Drop)]
pub struct Pairs {
    alloc: Global,
    rows: Vec<Option<PairRow>>,
    names: NameIndex,
    /// The halves to which frames come.
    line: Line,
}

impl Model for Pairs {
    ghost use Rattle.std.specs.Prelude.{List, Option};
    ghost use Rattle.vn_epair.specs.Halves.{Pair};
    ghost use Rattle.vn_epair.specs.Kept.{IsKept};

    ghost Value = { List (Option Pair) };

    ghost view = { λ a. a.rows.items };

    ghost invariant = { λ a. IsKept a.rows.items a.names a.line };
}

impl Pairs {
    /// A table without pairs.
    pub fn new(alloc: Global) -> Result<Pairs, NoMemory>
        ensures { IfOk result (λ pairs. pairs ≡ []) }
    {
        Ok(Pairs {
            alloc,
            rows: Vec::new(alloc),
            names: NameIndex::new(alloc),
            line: Line::new(alloc),
        })
    }

    /// Makes a pair, and answers its number. Both halves are at home, and down.
    pub fn create(&mut self, home: Sid, unit: u32) -> Reply<u32>
        requires { length self.old < 2 ^ 32 }
        ensures answer { IfOk result (IsRefusedBy (create_refusal home.0 unit self.old)) }
        ensures number { IfOk result (λ answer. IfOk answer (λ n. n ≡ length self.old)) }
        ensures created { IfOk result (λ answer. OnOk answer (self.new
            ≡ self.old ++ Some (new_pair home.0 unit) ∷ [])) }
        ensures refused { IfOk result (λ answer. OnErr answer (self.new ≡ self.old)) }
        ensures no_memory { OnErr result (self.new ≡ self.old) }
    {
        if unit > UNIT_MAX {
            return Ok(Err(Errno::Inval));
        }
        if self.is_homed(home, unit) {
            return Ok(Err(Errno::Exist));
        }
        let number = self.rows.len() as u32;
        self.add(number, home, unit)?;
        Ok(Ok(number))
    }

    fn add(&mut self, number: u32, home: Sid, unit: u32) -> Result<(), NoMemory>
        requires number { number ≡ length self.old }
        requires unit { unit ≤ UNIT_MAX }
        requires new { (q : ℕ) → is_named home.0 unit (of self.old q) ≡ false }
        ensures added { OnOk result (self.new ≡ self.old ++ Some (new_pair home.0 unit) ∷ []) }
        ensures kept { OnErr result (self.new ≡ self.old) }
    {
        let row = PairRow::new(self.alloc, home, unit)?;
        self.rows.reserve(1)?;
        self.line.reserve()?;
        let Ok(()) = self.names.insert(home, unit, number) else {
            self.line.release();
            return Err(NoMemory);
        };
        self.rows.push_reserved(Some(row));
        Ok(())
    }

    /// The lowest unit whose pair isn't homed in a stack, and neither of whose names stands there. The caller
    /// knows that there is one.
    pub fn lowest_free<S: Standing>(&self, home: Sid, standing: &S) -> u32
        requires { HasFree (S.stands standing.now home) home.0 self.now }
        ensures lowest { IsLowestFree (S.stands standing.now home) home.0 self.now result }
        ensures unit { result ≤ UNIT_MAX }
    {
        let mut unit = self.names.filled(home);
        while !self.is_free(home, unit, standing) {
            unit += 1;
        }
        unit
    }

    fn is_free<S: Standing>(&self, home: Sid, unit: u32, standing: &S) -> bool
        ensures { result ≡ is_unit_free (S.stands standing.now home) home.0 self.now unit }
    {
        if self.is_homed(home, unit) {
            return false;
        }
        let a = IfName::Epair {
            unit,
            side: Side::A,
        };
        if standing.stands(home, a) {
            return false;
        }
        let b = IfName::Epair {
            unit,
            side: Side::B,
        };
        !standing.stands(home, b)
    }

    fn is_homed(&self, home: Sid, unit: u32) -> bool
        ensures { result ≡ list_any (is_named home.0 unit) self.now }
    {
        self.names.number(home, unit).is_some()
    }

    /// Takes a pair away, with the frames that wait.
    pub fn destroy(&mut self, pair: u32)
        requires { IsSome (of self.old pair) }
        ensures destroyed { of self.new pair ≡ None }
        ensures others { ChangesOnly pair (of self.old) (of self.new) }
        ensures numbers { length self.new ≡ length self.old }
    {
        self.clear(pair);
        self.forget(pair);
    }

    /// Takes a pair away in which no frame waits.
    fn forget(&mut self, pair: u32)
        requires exists { IsSome (of self.old pair) }
        requires empty { emptied (pair_of self.old pair) ≡ pair_of self.old pair }
        ensures destroyed { of self.new pair ≡ None }
        ensures others { ChangesOnly pair (of self.old) (of self.new) }
        ensures numbers { length self.new ≡ length self.old }
    {
        let Some(row) = self.rows[pair as usize].take() else {
            unreachable!()
        };
        self.names.remove(row.home(), row.unit());
        self.line.release();
    }

    /// Puts a frame into the queue that comes to the other half.
    pub fn send(&mut self, from: HalfId, frame: Bytes) -> Result<(), Errno>
        requires { IsSome (of self.old from.pair) }
        ensures answer { IsRefusedBy (send_refusal (half_of self.old from)) result }
        ensures sent { OnOk result (of self.new from.pair ≡ Some (with_end from.side
            (record (half_of self.old from) { sent = (half_of self.old from).sent ++ frame ∷ [] })
            (pair_of self.old from.pair))) }
        ensures refused { OnErr result (self.new ≡ self.old) }
        ensures others { ChangesOnly from.pair (of self.old) (of self.new) }
        ensures numbers { length self.new ≡ length self.old }
    {
        let Some(row) = &mut self.rows[from.pair as usize] else {
            unreachable!()
        };
        let to = HalfId {
            pair: from.pair,
            side: other(from.side),
        };
        let was_quiet = row.is_quiet(to.side);
        let answer = row.send(from.side, frame);
        self.line
            .settle(awaited(row, to), was_quiet, row.is_quiet(to.side));
        answer
    }

    /// Takes the oldest frame that comes to a half.
    pub fn take(&mut self, at: HalfId) -> Option<Bytes>
        requires { IsSome (of self.old at.pair) }
        ensures empty { IsNone result ↔ (coming_to self.old at ≡ []) }
        ensures first { result ≡ slice_get (coming_to self.old at) 0 }
        ensures rest { of self.new at.pair ≡ Some (with_coming at.side
            (drop 1 (coming_to self.old at)) (pair_of self.old at.pair)) }
        ensures others { ChangesOnly at.pair (of self.old) (of self.new) }
        ensures numbers { length self.new ≡ length self.old }
    {
        let Some(row) = &mut self.rows[at.pair as usize] else {
            unreachable!()
        };
        let was_quiet = row.is_quiet(at.side);
        let frame = row.take(at.side);
        self.line
            .settle(awaited(row, at), was_quiet, row.is_quiet(at.side));
        frame
    }

    /// Drops all frames of a pair.
    pub fn clear(&mut self, pair: u32)
        requires { IsSome (of self.old pair) }
        ensures emptied { of self.new pair ≡ Some (emptied (pair_of self.old pair)) }
        ensures others { ChangesOnly pair (of self.old) (of self.new) }
        ensures numbers { length self.new ≡ length self.old }
    {
        self.clear_to(HalfId {
            pair,
            side: Side::A,
        });
        self.clear_to(HalfId {
            pair,
            side: Side::B,
        });
    }

    /// Drops the frames that come to a half.
    fn clear_to(&mut self, at: HalfId)
        requires { IsSome (of self.old at.pair) }
        ensures emptied { of self.new at.pair ≡ Some (with_coming at.side [] (pair_of self.old at.pair)) }
        ensures others { ChangesOnly at.pair (of self.old) (of self.new) }
        ensures numbers { length self.new ≡ length self.old }
    {
        let Some(row) = &mut self.rows[at.pair as usize] else {
            unreachable!()
        };
        let was_quiet = row.is_quiet(at.side);
        row.clear(at.side);
        self.line.settle(awaited(row, at), was_quiet, true);
    }

    /// The number of the pair of a home and a unit.
    pub fn find(&self, home: Sid, unit: u32) -> Option<u32>
        ensures found { IfSome result (λ n. is_named home.0 unit (of self.now n) ≡ true) }
        ensures alone { IfSome result (λ n. (q : ℕ) → is_named home.0 unit (of self.now q) ≡ true → q ≡ n) }
        ensures none { IfNone result ((q : ℕ) → is_named home.0 unit (of self.now q) ≡ false) }
    {
        self.names.number(home, unit)
    }

    /// The first half to which a frame comes, by the place of its home in the order, then by unit and side.
    pub fn next_queued(&self, order: &[Sid]) -> Option<HalfId>
        ensures next { IfSome result (IsNextQueued order.now self.now) }
        ensures none { IfNone result (IsAllQuiet order.now self.now) }
    {
        for home in order {
            if let Some(first) = self.line.first_of(*home) {
                return Some(first.half);
            }
        }
        None
    }
}

/// The half with the home and the unit of its pair.
fn awaited(row: &PairRow, half: HalfId) -> Awaited
    ensures { result ≡ record { home = record { 0 = row.now.home }; unit = row.now.unit; half = half } }
{
    Awaited {
        home: row.home(),
        unit: row.unit(),
        half,
    }
}

/// The side at the other end.
fn other(side: Side) -> Side
    ensures { result ≡ other_side side }
{
    match side {
        Side::A => Side::B,
        Side::B => Side::A,
    }
}
