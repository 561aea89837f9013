ghost use Rattle.std.specs.Prelude.{◌≡◌, ◌≤◌, [], OnOk, OnErr, IfOk, IfSome};
ghost use Rattle.vn_types.specs.Interfaces.{half_id_eq};
ghost use Rattle.vn_rules.specs.Addresses.{local, after_add, broadcast, address_at, on_interface, address_of, remove_answer, after_remove, after_purge, source_for, first};

use std::alloc::Global;
use std::marker::Model;
use vn_rules::Addr;
use vn_types::{Empty, Errno, If, Ip4, NoMemory};

/// The addresses of one stack, in order of adding.
#[derive(Drop)]
pub(crate) struct Addresses {
    items: Vec<Addr>,
}

impl Model for Addresses {
    ghost use Rattle.std.specs.Prelude.{◌≤◌, List, All};
    ghost use Rattle.vn_types.specs.declared.interface.HalfId.{HalfId};
    ghost use Rattle.vn_rules.specs.declared.address.AddrOf.{AddrOf};

    ghost Value = { List (AddrOf HalfId) };

    ghost view = { λ a. a.items.items };

    // Only lengths of networks stand.
    ghost invariant = { λ a. All (λ (addr : AddrOf HalfId). addr.len ≤ 32) a.items.items };
}

impl Empty for Addresses {
    ghost empty = { [] };

    fn empty(alloc: Global) -> Addresses {
        Addresses {
            items: Vec::new(alloc),
        }
    }
}

impl Addresses {
    pub(crate) fn add(&mut self, addr: Addr) -> Result<(), NoMemory>
        requires { addr.len ≤ 32 }
        ensures added { OnOk result (self.new ≡ after_add addr self.old) }
        ensures kept { OnErr result (self.new ≡ self.old) }
    {
        self.items.push(addr)?;
        Ok(())
    }

    pub(crate) fn remove(&mut self, on: If, ip: Ip4) -> Result<Addr, Errno>
        ensures answer { result ≡ remove_answer half_id_eq on ip self.old }
        ensures after { self.new ≡ after_remove half_id_eq on ip self.old }
        ensures length { IfOk result (λ addr. addr.len ≤ 32) }
    {
        let Some(addr) = self.address_of(on, ip) else {
            return Err(Errno::AddrNotAvail);
        };
        self.items.retain(|other| !addr.is_same(*other));
        Ok(addr)
    }

    fn address_of(&self, on: If, ip: Ip4) -> Option<Addr>
        ensures found { result ≡ address_of half_id_eq on ip self.now }
        ensures length { IfSome result (λ addr. addr.len ≤ 32) }
    {
        self.items.iter().find(|addr| addr.is_at(on, ip)).copied()
    }

    pub(crate) fn local(&self, ip: Ip4) -> bool
        ensures { result ≡ local ip self.now }
    {
        self.items.iter().any(|addr| addr.has_ip(ip))
    }

    pub(crate) fn on_interface(&self, on: If, ip: Ip4) -> bool
        ensures { result ≡ on_interface half_id_eq on ip self.now }
    {
        self.items.iter().any(|addr| addr.is_at(on, ip))
    }

    pub(crate) fn broadcast(&self, ip: Ip4) -> bool
        ensures { result ≡ broadcast ip self.now }
    {
        self.items.iter().any(|addr| addr.is_broadcast_of(ip))
    }

    pub(crate) fn source_for(&self, on: If, hop: Ip4) -> Option<Ip4>
        ensures { result ≡ source_for half_id_eq on hop self.now }
    {
        let addr = self.items.iter().find(|addr| addr.reaches(on, hop))?;
        Some(addr.ip)
    }

    pub(crate) fn first(&self, on: If) -> Option<Ip4>
        ensures { result ≡ first half_id_eq on self.now }
    {
        let addr = self.items.iter().find(|addr| addr.is_on(on))?;
        Some(addr.ip)
    }

    pub(crate) fn purge(&mut self, on: If)
        ensures { self.new ≡ after_purge half_id_eq on self.old }
    {
        self.items.retain(|addr| !addr.is_on(on));
    }

    pub(crate) fn at(&self, place: u64) -> Option<Addr>
        ensures at { result ≡ address_at place self.now }
        ensures length { IfSome result (λ addr. addr.len ≤ 32) }
    {
        self.items.get(place as usize).copied()
    }

    pub(crate) fn list(&self) -> &[Addr]
        ensures { result.now ≡ self.now }
    {
        self.items.as_slice()
    }
}
