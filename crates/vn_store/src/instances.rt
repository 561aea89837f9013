ghost use Rattle.std.specs.Prelude.{◌≡◌, ℕ, ◌<◌, ◌≤◌, [], length, Some, None, OnOk, OnErr};
ghost use Rattle.std.specs.Option.{ForSome};
ghost use Rattle.vn_types.specs.PerStack.{of as kept_for, ChangesOnly};
ghost use Rattle.vn_store.specs.Rows.{count_of, value_at, with_value_at, cut, grown};

use crate::values::Values;
use std::alloc::Global;
use std::marker::Model;
use vn_types::{NoMemory, PerStack, Sid};

/// The values of all stacks, seen as a list of stacks by their numbers.
#[derive(Drop)]
pub(crate) struct Instances {
    stacks: PerStack<Values>,
}

impl Model for Instances {
    ghost use Rattle.std.specs.Prelude.{List, ℕ, Option};

    ghost Value = { List (Option (List ℕ)) };

    ghost view = { λ a. a.stacks };
}

impl Instances {
    pub(crate) fn new(alloc: Global) -> Instances
        ensures { result ≡ [] }
    {
        Instances {
            stacks: PerStack::new(alloc),
        }
    }

    pub(crate) fn start(&mut self, sid: Sid, values: Vec<u64>) -> Result<(), NoMemory>
        ensures started { OnOk result (kept_for None self.new sid.0 ≡ Some values.items) }
        ensures kept { OnErr result (kept_for None self.new sid.0 ≡ kept_for None self.old sid.0) }
        ensures others { ChangesOnly sid.0 (kept_for None self.old) (kept_for None self.new) }
    {
        self.stacks.at_or_new(sid)?.start(values);
        Ok(())
    }

    pub(crate) fn stop(&mut self, sid: Sid)
        ensures stopped { kept_for None self.new sid.0 ≡ None }
        ensures others { ChangesOnly sid.0 (kept_for None self.old) (kept_for None self.new) }
    {
        if let Some(values) = self.stacks.at_mut(sid) {
            values.stop();
        }
    }

    pub(crate) fn get(&self, sid: Sid, place: usize) -> u64
        requires { place < count_of (kept_for None self.now sid.0) }
        ensures { value_at place (kept_for None self.now sid.0) ≡ Some result }
    {
        self.stacks.at(sid).unwrap().get(place)
    }

    pub(crate) fn set(&mut self, sid: Sid, place: usize, value: u64)
        requires { place < count_of (kept_for None self.old sid.0) }
        ensures set { kept_for None self.new sid.0
            ≡ with_value_at place value (kept_for None self.old sid.0) }
        ensures others { ChangesOnly sid.0 (kept_for None self.old) (kept_for None self.new) }
    {
        self.stacks.at_mut(sid).unwrap().set(place, value);
    }

    /// Puts a value behind the first so many of each stack.
    pub(crate) fn give(&mut self, count: usize, value: u64) -> Result<(), NoMemory>
        requires { (q : ℕ) → ForSome (kept_for None self.old q) (λ values. count ≤ length values) }
        ensures given { OnOk result ((q : ℕ) → kept_for None self.new q
            ≡ grown count value (kept_for None self.old q)) }
        ensures first { (q : ℕ) → cut count (kept_for None self.new q)
            ≡ cut count (kept_for None self.old q) }
    {
        give_each(self.stacks.rows_mut(), count, value)
    }
}

fn give_each(stacks: &mut [Values], count: usize, value: u64) -> Result<(), NoMemory>
    requires { (q : ℕ) → ForSome (kept_for None stacks.old q) (λ values. count ≤ length values) }
    ensures given { OnOk result ((q : ℕ) → kept_for None stacks.new q
        ≡ grown count value (kept_for None stacks.old q)) }
    ensures first { (q : ℕ) → cut count (kept_for None stacks.new q)
        ≡ cut count (kept_for None stacks.old q) }
    ensures as_many { length stacks.new ≡ length stacks.old }
{
    for sid in 0..stacks.len() {
        stacks[sid].give(count, value)?;
    }
    Ok(())
}
