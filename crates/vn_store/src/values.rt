ghost use Rattle.std.specs.Prelude.{◌≡◌, ◌<◌, ◌≤◌, [], ◌∷◌, ◌++◌, length, take, vec_len, Some, None, OnOk};
ghost use Rattle.std.specs.Option.{ForSome};
ghost use Rattle.vn_store.specs.Rows.{count_of, value_at, with_value_at, cut, grown};

use std::alloc::Global;
use std::marker::Model;
use vn_types::{Empty, NoMemory};

/// The values of one stack, in the order of the variables, where it has an instance.
#[derive(Drop)]
pub(crate) struct Values {
    values: Option<Vec<u64>>,
}

impl Model for Values {
    ghost use Rattle.std.specs.Prelude.{List, ℕ, Option, option_map};

    ghost Value = { Option (List ℕ) };

    ghost view = { λ a. option_map (λ v. v.items) a.values };
}

impl Empty for Values {
    ghost empty = { None };

    fn empty(_alloc: Global) -> Values {
        Values { values: None }
    }
}

impl Values {
    pub(crate) fn start(&mut self, values: Vec<u64>)
        ensures { self.new ≡ Some values.items }
    {
        self.values = Some(values);
    }

    pub(crate) fn stop(&mut self)
        ensures { self.new ≡ None }
    {
        self.values = None;
    }

    pub(crate) fn get(&self, place: usize) -> u64
        requires { place < count_of self.now }
        ensures { value_at place self.now ≡ Some result }
    {
        match &self.values {
            Some(values) => values[place],
            None => unreachable!(),
        }
    }

    pub(crate) fn set(&mut self, place: usize, value: u64)
        requires { place < count_of self.old }
        ensures { self.new ≡ with_value_at place value self.old }
    {
        match &mut self.values {
            Some(values) => values[place] = value,
            None => unreachable!(),
        }
    }

    /// Puts a value behind the first so many, and drops those that stood behind them.
    pub(crate) fn give(&mut self, count: usize, value: u64) -> Result<(), NoMemory>
        requires { ForSome self.old (λ values. count ≤ length values) }
        ensures given { OnOk result (self.new ≡ grown count value self.old) }
        ensures first { cut count self.new ≡ cut count self.old }
    {
        match &mut self.values {
            Some(values) => give_one(values, count, value),
            None => Ok(()),
        }
    }
}

fn give_one(values: &mut Vec<u64>, count: usize, value: u64) -> Result<(), NoMemory>
    requires { count ≤ vec_len values.old }
    ensures given { OnOk result (values.new.items ≡ take count values.old.items ++ value ∷ []) }
    ensures first { take count values.new.items ≡ take count values.old.items }
{
    values.truncate(count);
    values.push(value)?;
    Ok(())
}
