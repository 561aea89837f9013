ghost use Rattle.std.specs.Prelude.{◌≡◌, ◌+◌, ◌<◌, ◌^◌, ℕ, List, Some, None, IsNone, IsSome, IfOk, OnOk, OnErr};
ghost use Rattle.vn_types.specs.PerStack.{ChangesOnly};
ghost use Rattle.vn_vmove.specs.Tallies.{Held, after_count, after_ident, counts_of, drops_of, first_counts, of};

use crate::counts::Counted;
use std::alloc::Global;
use std::marker::Model;
use vn_packets::Tally;
use vn_types::{NoMemory, PerStack, Sid};

/// What all living stacks count, seen as a list of stacks by their numbers. Only `make` takes memory.
#[derive(Drop)]
pub struct Tallies(PerStack<Counted>);

impl Model for Tallies {
    ghost Value = { List Held };

    ghost view = { λ a. a.0 };
}

impl Tallies {
    /// A table in which no stack counts.
    pub fn new(alloc: Global) -> Result<Tallies, NoMemory>
        ensures { IfOk result (λ tallies. (q : ℕ) → of tallies q ≡ None) }
    {
        Ok(Tallies(PerStack::new(alloc)))
    }

    /// Lets a stack count, from 0.
    pub fn make(&mut self, sid: Sid) -> Result<(), NoMemory>
        requires { IsNone (of self.old sid.0) }
        ensures made { OnOk result (of self.new sid.0 ≡ Some first_counts) }
        ensures no_memory { OnErr result (of self.new sid.0 ≡ None) }
        ensures others { ChangesOnly sid.0 (of self.old) (of self.new) }
    {
        self.0.at_or_new(sid)?.start();
        Ok(())
    }

    /// Takes the counts of a stack away.
    pub fn remove(&mut self, sid: Sid)
        requires { IsSome (of self.old sid.0) }
        ensures removed { of self.new sid.0 ≡ None }
        ensures others { ChangesOnly sid.0 (of self.old) (of self.new) }
    {
        self.0.at_mut(sid).unwrap().stop();
    }

    /// Counts so many more of a cause.
    pub fn count(&mut self, sid: Sid, what: Tally, by: u64)
        requires exists { IsSome (of self.old sid.0) }
        requires fits { drops_of what (counts_of self.old sid.0).drops + by < 2 ^ 64 }
        ensures counted { of self.new sid.0 ≡ Some (after_count what by (counts_of self.old sid.0)) }
        ensures others { ChangesOnly sid.0 (of self.old) (of self.new) }
    {
        self.0.at_mut(sid).unwrap().count(what, by);
    }

    /// How many a stack dropped for a cause.
    pub fn get(&self, sid: Sid, what: Tally) -> u64
        requires { IsSome (of self.now sid.0) }
        ensures { result ≡ drops_of what (counts_of self.now sid.0).drops }
    {
        self.0.at(sid).unwrap().get(what)
    }

    /// The identification of a stack's next datagram.
    pub fn ident(&self, sid: Sid) -> u16
        requires { IsSome (of self.now sid.0) }
        ensures { result ≡ (counts_of self.now sid.0).ident }
    {
        self.0.at(sid).unwrap().ident()
    }

    /// Moves the identification on by one, and from the greatest to 0.
    pub fn next_ident(&mut self, sid: Sid)
        requires { IsSome (of self.old sid.0) }
        ensures moved { of self.new sid.0 ≡ Some (after_ident (counts_of self.old sid.0)) }
        ensures others { ChangesOnly sid.0 (of self.old) (of self.new) }
    {
        self.0.at_mut(sid).unwrap().next_ident();
    }
}
