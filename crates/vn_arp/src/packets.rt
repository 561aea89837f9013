ghost use Rattle.std.specs.Prelude.{◌≡◌, ◌++◌, ◌∷◌, [], nat_le, drop, length, slice_get, IfOk, OnOk, OnErr};
ghost use Rattle.vn_rules.specs.declared.arp.TheConstants.{HELD_MAX};
ghost use Rattle.vn_rules.specs.Arp.{newest};

use bytes::Bytes;
use std::alloc::Global;
use std::collections::VecDeque;
use std::marker::Model;
use std::mem;
use vn_rules::HELD_MAX;
use vn_types::NoMemory;

/// The datagrams that wait for a neighbour, or waited for it, seen as the list of their octets, oldest first.
#[derive(Drop)]
pub struct Packets {
    items: VecDeque<Bytes>,
}

impl Model for Packets {
    ghost use Rattle.std.specs.Prelude.{◌≤◌, List, ℕ, length};
    ghost use Rattle.vn_rules.specs.declared.arp.TheConstants.{HELD_MAX};

    ghost Value = { List (List ℕ) };

    ghost view = { λ p. p.items.items };

    ghost invariant = { λ p. length p.items.items ≤ HELD_MAX };
}

impl Packets {
    pub(crate) fn new(alloc: Global) -> Packets
        ensures { result ≡ [] }
    {
        Packets {
            items: VecDeque::new(alloc),
        }
    }

    /// The number of datagrams.
    pub fn len(&self) -> u64
        ensures { result ≡ length self.now }
    {
        self.items.len() as u64
    }

    /// Takes the oldest.
    pub fn take(&mut self) -> Option<Bytes>
        ensures first { result ≡ slice_get self.old 0 }
        ensures rest { self.new ≡ drop 1 self.old }
    {
        self.items.pop_front()
    }

    /// Keeps one datagram more, and tells whether the oldest gave way to it.
    pub(crate) fn hold(&mut self, packet: Bytes) -> Result<bool, NoMemory>
        ensures dropped { IfOk result (λ dropped. dropped ≡ nat_le HELD_MAX (length self.old)) }
        ensures held { OnOk result (self.new ≡ newest HELD_MAX (self.old ++ packet ∷ [])) }
        ensures kept { OnErr result (self.new ≡ self.old) }
    {
        let is_full = self.items.len() >= HELD_MAX;
        self.items.push_back(packet)?;
        if is_full {
            self.items.pop_front();
        }
        Ok(is_full)
    }

    /// Takes all of them.
    pub(crate) fn take_all(&mut self) -> Packets
        ensures all { result ≡ self.old }
        ensures none { self.new ≡ [] }
    {
        let none = self.none();
        mem::replace(self, none)
    }

    /// None, where these are.
    pub(crate) fn none(&self) -> Packets
        ensures { result ≡ [] }
    {
        Packets::new(*self.items.allocator())
    }
}
