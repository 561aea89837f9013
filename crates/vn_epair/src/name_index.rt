ghost use Rattle.std.specs.Prelude.{◌≡◌, ◌≤◌, ◌<◌, ◌+◌, ℕ, [], IsSome, None, OnErr, OnOk, Some, if◌then◌else◌};
ghost use Rattle.std.specs.BTreeMap.{is_at};
ghost use Rattle.vn_epair.specs.Kept.{AreNamed, Name, name_cmp, told};

use crate::pair_row::UNIT_MAX;
use std::alloc::Global;
use std::collections::BTreeMap;
use std::marker::Model;
use vn_types::{Empty, NoMemory, PerStack, Sid};

/// The numbers of pairs by home and unit, seen as the list of them. Only `insert` takes memory.
#[derive(Drop)]
pub(crate) struct NameIndex {
    numbers: BTreeMap<(u32, u32), u32>,
    filled: PerStack<Filled>,
}

/// How many of the first units of a home are known to have pairs.
#[derive(Drop)]
struct Filled {
    units: u32,
}

impl Model for NameIndex {
    ghost use Rattle.std.specs.Prelude.{List, ℕ};
    ghost use Rattle.vn_epair.specs.Kept.{IsFilled};

    ghost Value = { List ((ℕ × ℕ) × ℕ) };

    ghost view = { λ a. a.numbers.entries };

    ghost invariant = { λ a. IsFilled a.numbers.entries a.filled };
}

impl Empty for Filled {
    ghost empty = { record { units = 0 } };

    fn empty(_alloc: Global) -> Filled {
        Filled { units: 0 }
    }
}

impl NameIndex {
    pub(crate) fn new(alloc: Global) -> NameIndex
        ensures { result ≡ [] }
    {
        NameIndex {
            numbers: BTreeMap::new(alloc),
            filled: PerStack::new(alloc),
        }
    }

    /// The number of the pair of a home and a unit.
    pub(crate) fn number(&self, home: Sid, unit: u32) -> Option<u32>
        ensures { result ≡ told self.now (home.0, unit) }
    {
        self.numbers.get(&(home.0, unit)).copied()
    }

    /// How many of the first units of a home are known to have pairs.
    pub(crate) fn filled(&self, home: Sid) -> u32
        ensures { AreNamed self.now home.0 result }
    {
        match self.filled.at(home) {
            Some(filled) => filled.units,
            None => 0,
        }
    }

    /// Has the number for the home and the unit.
    pub(crate) fn insert(&mut self, home: Sid, unit: u32, number: u32) -> Result<(), NoMemory>
        ensures inserted { OnOk result ((k : Name) → told self.new k
            ≡ (if is_at (name_cmp (home.0, unit)) k then Some number else told self.old k)) }
        ensures kept { OnErr result (self.new ≡ self.old) }
    {
        let filled = self.filled.at_or_new(home)?;
        self.numbers.insert((home.0, unit), number)?;
        filled.units = first_unnamed(&self.numbers, home, filled.units);
        Ok(())
    }

    /// Has no number for the home and the unit.
    pub(crate) fn remove(&mut self, home: Sid, unit: u32)
        ensures { (k : Name) → told self.new k
            ≡ (if is_at (name_cmp (home.0, unit)) k then None else told self.old k) }
    {
        self.numbers.remove(&(home.0, unit));
        let Some(filled) = self.filled.at_mut(home) else {
            return;
        };
        filled.units = filled.units.min(unit);
    }
}

/// The first unit of a home, from one on, that has no number.
fn first_unnamed(numbers: &BTreeMap<(u32, u32), u32>, home: Sid, from: u32) -> u32
    ensures { (unit : ℕ) → from ≤ unit → unit < result
        → IsSome (told numbers.now.entries (home.0, unit)) }
{
    let mut unit = from;
    while unit <= UNIT_MAX && numbers.contains_key(&(home.0, unit)) {
        unit += 1;
    }
    unit
}
