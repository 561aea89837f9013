ghost use Rattle.std.specs.Prelude.{◌≡◌, ◌≢◌, ℕ, List, [], Some, None, OnOk, OnErr, IfOk, MatchOption, length, slice_get};
ghost use Rattle.std.specs.Option.{is_some, option_map};
ghost use Rattle.vn_types.specs.declared.interface.IfName.{IfName as Spelt};
ghost use Rattle.vn_types.specs.PerStack.{ChangesOnly};
ghost use Rattle.vn_ifnet.specs.declared.interfaces.Attached.{Attached as Entry};
ghost use Rattle.vn_ifnet.specs.Stacks.{Held, is_taken, named, nothing, of, reserved_by, with_last, without};

use crate::interfaces::{Attached, Interfaces};
use std::alloc::Global;
use std::collections::btree_map::Values;
use std::marker::Model;
use vn_types::{HalfId, If, IfName, NoMemory, PerStack, Sid, Standing};

/// The interfaces of all stacks, seen as a list of stacks by their numbers. Only `attach` and `reserve_name`
/// take memory.
#[derive(Drop)]
pub struct IfTable {
    stacks: PerStack<Interfaces>,
}

impl Model for IfTable {
    ghost Value = { List Held };

    ghost view = { λ a. a.stacks };
}

impl IfTable {
    /// A table in which nothing stands and no name is reserved.
    pub fn new(alloc: Global) -> Result<IfTable, NoMemory>
        ensures { IfOk result (λ table. (q : ℕ) → of table q ≡ nothing) }
    {
        Ok(IfTable {
            stacks: PerStack::new(alloc),
        })
    }

    /// Attaches an interface to a stack under a name, behind all others. A name that it had there is free again.
    pub fn attach(&mut self, sid: Sid, what: If, name: IfName) -> Result<(), NoMemory>
        requires { named name (of self.old sid.0) ≡ None }
        ensures attached { OnOk result (of self.new sid.0 ≡ with_last what name (of self.old sid.0)) }
        ensures no_memory { OnErr result (of self.new sid.0 ≡ of self.old sid.0) }
        ensures others { ChangesOnly sid.0 (of self.old) (of self.new) }
    {
        self.stacks.at_or_new(sid)?.attach(what, name)
    }

    /// Takes an interface out of a stack. The names that are reserved there stay.
    pub fn detach(&mut self, sid: Sid, what: If)
        ensures detached { of self.new sid.0 ≡ record (of self.old sid.0) {
          attached = without what (of self.old sid.0).attached;
        } }
        ensures others { ChangesOnly sid.0 (of self.old) (of self.new) }
    {
        if let Some(interfaces) = self.stacks.at_mut(sid) {
            interfaces.detach(what);
        }
    }

    /// The interface of a stack under a name.
    pub fn find(&self, sid: Sid, name: IfName) -> Option<If>
        ensures { result ≡ named name (of self.now sid.0) }
    {
        self.stacks.at(sid)?.find(name)
    }

    /// Whether the name stands in a stack, or is reserved there by another half than `but`.
    pub fn taken(&self, sid: Sid, name: IfName, but: Option<HalfId>) -> bool
        ensures { result ≡ is_taken name but (of self.now sid.0) }
    {
        match self.stacks.at(sid) {
            Some(interfaces) => {
                interfaces.find(name).is_some() || interfaces.is_reserved(name, but)
            }
            None => false,
        }
    }

    /// Reserves a name in a stack for a half that is homed there.
    pub fn reserve_name(&mut self, home: Sid, name: IfName, half: HalfId) -> Result<(), NoMemory>
        ensures reserved { OnOk result (reserved_by name (of self.new home.0) ≡ Some half) }
        ensures names { (other : Spelt) → other ≢ name
            → reserved_by other (of self.new home.0) ≡ reserved_by other (of self.old home.0) }
        ensures attached { (of self.new home.0).attached ≡ (of self.old home.0).attached }
        ensures no_memory { OnErr result (of self.new home.0 ≡ of self.old home.0) }
        ensures others { ChangesOnly home.0 (of self.old) (of self.new) }
    {
        self.stacks.at_or_new(home)?.reserve(name, half)
    }

    /// Lets a name go that was reserved in a stack.
    pub fn release_name(&mut self, home: Sid, name: IfName)
        ensures released { reserved_by name (of self.new home.0) ≡ None }
        ensures names { (other : Spelt) → other ≢ name
            → reserved_by other (of self.new home.0) ≡ reserved_by other (of self.old home.0) }
        ensures attached { (of self.new home.0).attached ≡ (of self.old home.0).attached }
        ensures others { ChangesOnly home.0 (of self.old) (of self.new) }
    {
        if let Some(interfaces) = self.stacks.at_mut(home) {
            interfaces.release(name);
        }
    }

    /// The number of interfaces of a stack.
    pub fn count(&self, sid: Sid) -> u64
        ensures { result ≡ length (of self.now sid.0).attached }
    {
        match self.stacks.at(sid) {
            Some(interfaces) => interfaces.count(),
            None => 0,
        }
    }

    /// The interface of a stack at a place in order of attachment, counted from 0. There is none past the end.
    pub fn at(&self, sid: Sid, place: u64) -> Option<If>
        ensures { result ≡ option_map (λ (a : Entry). a.what)
            (slice_get (of self.now sid.0).attached place) }
    {
        self.stacks.at(sid)?.at(place)
    }

    /// The interfaces of a stack under their names, in order of attachment: none only where nothing is attached.
    pub fn attached(&self, sid: Sid) -> Option<Values<'_, u64, Attached>>
        ensures { MatchOption result
            ((of self.now sid.0).attached ≡ [])
            (λ values. values ≡ (of self.now sid.0).attached) }
    {
        match self.stacks.at(sid) {
            Some(interfaces) => Some(interfaces.attached()),
            None => None,
        }
    }
}

impl Standing for IfTable {
    ghost stands = { λ table sid name. is_some (named name (of table sid.0)) };

    fn stands(&self, sid: Sid, name: IfName) -> bool {
        self.find(sid, name).is_some()
    }
}
