ghost use Rattle.std.specs.Prelude.{◌≡◌, ℕ, ◌≤◌, List, [], Some, None, OnOk, OnErr, IfOk, IfSome};
ghost use Rattle.vn_types.specs.declared.interface.HalfId.{HalfId};
ghost use Rattle.vn_types.specs.PerStack.{ChangesOnly};
ghost use Rattle.vn_types.specs.Refusals.{IsRefusedBy};
ghost use Rattle.vn_types.specs.Interfaces.{half_id_eq};
ghost use Rattle.vn_rules.specs.declared.address.AddrOf.{AddrOf};
ghost use Rattle.vn_rules.specs.Addresses.{local, add_refusal, after_add, broadcast, address_at, on_interface, remove_answer, after_remove, after_purge, source_for, first};
ghost use Rattle.vn_inaddr.specs.Stacks.{of};

use crate::addresses::Addresses;
use std::alloc::Global;
use std::marker::Model;
use vn_rules::Addr;
use vn_types::{Errno, If, Ip4, NoMemory, PerStack, Reply, Sid};

/// The addresses of all stacks, seen as a list of stacks by their numbers. Only `add` takes memory.
#[derive(Drop)]
pub struct Addrs {
    stacks: PerStack<Addresses>,
}

impl Model for Addrs {
    ghost Value = { List (List (AddrOf HalfId)) };

    ghost view = { λ a. a.stacks };
}

impl Addrs {
    /// A table in which no stack has an address.
    pub fn new(alloc: Global) -> Result<Addrs, NoMemory>
        ensures { IfOk result (λ addrs. (q : ℕ) → of addrs q ≡ []) }
    {
        Ok(Addrs {
            stacks: PerStack::new(alloc),
        })
    }

    /// Adds an address to an interface of a stack, behind those that the stack has (ifconfig(8), `alias`).
    pub fn add(&mut self, sid: Sid, addr: Addr) -> Reply<()>
        requires { addr.len ≤ 32 }
        ensures answer { IfOk result (IsRefusedBy (add_refusal addr (of self.old sid.0))) }
        ensures added { IfOk result (λ answer. OnOk answer (of self.new sid.0
            ≡ after_add addr (of self.old sid.0))) }
        ensures refused { IfOk result
            (λ answer. OnErr answer (of self.new sid.0 ≡ of self.old sid.0)) }
        ensures no_memory { OnErr result (of self.new sid.0 ≡ of self.old sid.0) }
        ensures others { ChangesOnly sid.0 (of self.old) (of self.new) }
    {
        if addr.is_unfit() {
            return Ok(Err(Errno::Inval));
        }
        if self.local(sid, addr.ip) {
            return Ok(Err(Errno::Exist));
        }
        self.stacks.at_or_new(sid)?.add(addr)?;
        Ok(Ok(()))
    }

    /// Removes an address from an interface of a stack, and answers it (ifconfig(8), `-alias`).
    pub fn remove(&mut self, sid: Sid, on: If, ip: Ip4) -> Result<Addr, Errno>
        ensures answer { result ≡ remove_answer half_id_eq on ip (of self.old sid.0) }
        ensures after { of self.new sid.0 ≡ after_remove half_id_eq on ip (of self.old sid.0) }
        ensures length { IfOk result (λ addr. addr.len ≤ 32) }
        ensures others { ChangesOnly sid.0 (of self.old) (of self.new) }
    {
        match self.stacks.at_mut(sid) {
            Some(addresses) => addresses.remove(on, ip),
            None => Err(Errno::AddrNotAvail),
        }
    }

    /// Whether a stack has the address, on any interface.
    pub fn local(&self, sid: Sid, ip: Ip4) -> bool
        ensures { result ≡ local ip (of self.now sid.0) }
    {
        match self.stacks.at(sid) {
            Some(addresses) => addresses.local(ip),
            None => false,
        }
    }

    /// Whether an interface of a stack has the address.
    pub fn on_interface(&self, sid: Sid, on: If, ip: Ip4) -> bool
        ensures { result ≡ on_interface half_id_eq on ip (of self.now sid.0) }
    {
        match self.stacks.at(sid) {
            Some(addresses) => addresses.on_interface(on, ip),
            None => false,
        }
    }

    /// Whether it is the broadcast address of a network in which a half of the stack has an address
    /// (RFC 1122, section 3.2.1.3). A network of 31 or 32 bits has none.
    pub fn broadcast(&self, sid: Sid, ip: Ip4) -> bool
        ensures { result ≡ broadcast ip (of self.now sid.0) }
    {
        match self.stacks.at(sid) {
            Some(addresses) => addresses.broadcast(ip),
            None => false,
        }
    }

    /// The source of what an interface sends to a next hop: its first address whose network has the hop.
    pub fn source_for(&self, sid: Sid, on: If, hop: Ip4) -> Option<Ip4>
        ensures { result ≡ source_for half_id_eq on hop (of self.now sid.0) }
    {
        self.stacks.at(sid)?.source_for(on, hop)
    }

    /// The first address of an interface.
    pub fn first(&self, sid: Sid, on: If) -> Option<Ip4>
        ensures { result ≡ first half_id_eq on (of self.now sid.0) }
    {
        self.stacks.at(sid)?.first(on)
    }

    /// Removes all addresses of an interface from a stack.
    pub fn purge_interface(&mut self, sid: Sid, on: If)
        ensures purged { of self.new sid.0 ≡ after_purge half_id_eq on (of self.old sid.0) }
        ensures others { ChangesOnly sid.0 (of self.old) (of self.new) }
    {
        if let Some(addresses) = self.stacks.at_mut(sid) {
            addresses.purge(on);
        }
    }

    /// The address of a stack at a place in order of adding, counted from 0. There is none past the end.
    pub fn at(&self, sid: Sid, place: u64) -> Option<Addr>
        ensures at { result ≡ address_at place (of self.now sid.0) }
        ensures length { IfSome result (λ addr. addr.len ≤ 32) }
    {
        self.stacks.at(sid)?.at(place)
    }

    /// The addresses of a stack, in order of adding.
    pub fn list(&self, sid: Sid) -> &[Addr]
        ensures { result.now ≡ of self.now sid.0 }
    {
        match self.stacks.at(sid) {
            Some(addresses) => addresses.list(),
            None => &[],
        }
    }
}
