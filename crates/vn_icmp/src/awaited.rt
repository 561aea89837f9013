ghost use Rattle.std.specs.Prelude.{◌≡◌, OnOk, OnErr};
ghost use Rattle.std.specs.List.{find};
ghost use Rattle.vn_rules.specs.Pings.{no_pings, after_ping, after_first, pings_without};
ghost use Rattle.vn_icmp.specs.Which.{is_one};

use crate::which::Which;
use std::alloc::Global;
use std::marker::Model;
use vn_rules::Ping;
use vn_types::{Empty, NoMemory};

/// The awaited pings of one stack, in order of sending, and the identifier of the next one.
#[derive(Drop)]
pub(crate) struct Awaited {
    next: u16,
    items: Vec<Ping>,
}

impl Model for Awaited {
    ghost use Rattle.vn_types.specs.declared.interface.HalfId.{HalfId};
    ghost use Rattle.vn_rules.specs.declared.ping.PingsOf.{PingsOf};

    ghost Value = { PingsOf HalfId };

    ghost view = { λ a. record { next = a.next; awaited = a.items.items } };
}

impl Empty for Awaited {
    ghost empty = { no_pings };

    fn empty(alloc: Global) -> Awaited {
        Awaited {
            next: 0,
            items: Vec::new(alloc),
        }
    }
}

impl Awaited {
    pub(crate) fn next(&self) -> u16
        ensures { result ≡ self.now.next }
    {
        self.next
    }

    pub(crate) fn as_slice(&self) -> &[Ping]
        ensures { result.now ≡ self.now.awaited }
    {
        self.items.as_slice()
    }

    pub(crate) fn add(&mut self, ping: Ping) -> Result<(), NoMemory>
        ensures added { OnOk result (self.new ≡ after_ping ping self.old) }
        ensures kept { OnErr result (self.new ≡ self.old) }
    {
        self.items.push(ping)?;
        self.next = self.next.wrapping_add(1);
        Ok(())
    }

    /// Takes out the first of them.
    pub(crate) fn take(&mut self, which: Which) -> Option<Ping>
        ensures taken { result ≡ find (is_one which) self.old.awaited }
        ensures left { self.new ≡ after_first (is_one which) self.old }
    {
        let place = self.items.iter().position(|ping| which.takes(*ping))?;
        Some(self.items.remove(place))
    }

    /// Takes out all of them.
    pub(crate) fn purge(&mut self, which: Which)
        ensures { self.new ≡ pings_without (is_one which) self.old }
    {
        self.items.retain(|ping| !which.takes(*ping));
    }

    pub(crate) fn clear(&mut self)
        ensures { self.new ≡ no_pings }
    {
        self.items.clear();
        self.next = 0;
    }
}
