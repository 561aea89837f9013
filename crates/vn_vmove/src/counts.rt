ghost use Rattle.std.specs.Prelude.{◌≡◌, ◌+◌, ◌<◌, ◌^◌, Some, None, IsSome, unwrap_or};
ghost use Rattle.std.specs.Option.{option_map};
ghost use Rattle.vn_packets.specs.Drops.{with_drops};
ghost use Rattle.vn_vmove.specs.Tallies.{Held, after_count, after_ident, drops_of, first_counts};

use std::alloc::Global;
use std::marker::Model;
use vn_packets::Tally;
use vn_rules::Drops;
use vn_types::Empty;

/// What a living stack counts.
#[derive(Clone, Copy)]
pub struct Counts {
    pub drops: Drops,
    /// The identification of the next datagram (RFC 791, section 3.1).
    pub ident: u16,
}

/// What one stack counts, where it lives.
#[derive(Drop)]
pub(crate) struct Counted {
    counts: Option<Counts>,
}

impl Model for Counted {
    ghost Value = { Held };

    ghost view = { λ a. a.counts };
}

impl Empty for Counted {
    ghost empty = { None };

    fn empty(_: Global) -> Counted {
        Counted { counts: None }
    }
}

impl Counted {
    pub(crate) fn start(&mut self)
        ensures { self.new ≡ Some first_counts }
    {
        let drops = Drops {
            link: 0,
            arp: 0,
            ip: 0,
            icmp: 0,
            udp: 0,
            full: 0,
        };
        self.counts = Some(Counts { drops, ident: 0 });
    }

    pub(crate) fn stop(&mut self)
        ensures { self.new ≡ None }
    {
        self.counts = None;
    }

    pub(crate) fn count(&mut self, what: Tally, by: u64)
        requires exists { IsSome self.old }
        requires fits { drops_of what (unwrap_or self.old first_counts).drops + by < 2 ^ 64 }
        ensures { self.new ≡ option_map (after_count what by) self.old }
    {
        let Some(counts) = &mut self.counts else {
            unreachable!()
        };
        let mut drops = counts.drops;
        add(&mut drops, what, by);
        counts.drops = drops;
    }

    pub(crate) fn get(&self, what: Tally) -> u64
        requires { IsSome self.now }
        ensures { result ≡ drops_of what (unwrap_or self.now first_counts).drops }
    {
        let drops = self.counts.unwrap().drops;
        match what {
            Tally::Link => drops.link,
            Tally::Arp => drops.arp,
            Tally::Ip => drops.ip,
            Tally::Icmp => drops.icmp,
            Tally::Udp => drops.udp,
            Tally::Full => drops.full,
        }
    }

    pub(crate) fn ident(&self) -> u16
        requires { IsSome self.now }
        ensures { result ≡ (unwrap_or self.now first_counts).ident }
    {
        self.counts.unwrap().ident
    }

    pub(crate) fn next_ident(&mut self)
        requires { IsSome self.old }
        ensures { self.new ≡ option_map after_ident self.old }
    {
        let Some(counts) = &mut self.counts else {
            unreachable!()
        };
        counts.ident = counts.ident.wrapping_add(1);
    }
}

/// Counts so many more of a cause.
fn add(drops: &mut Drops, what: Tally, by: u64)
    requires { drops_of what drops.old + by < 2 ^ 64 }
    ensures { drops.new ≡ with_drops what by drops.old }
{
    match what {
        Tally::Link => drops.link += by,
        Tally::Arp => drops.arp += by,
        Tally::Ip => drops.ip += by,
        Tally::Icmp => drops.icmp += by,
        Tally::Udp => drops.udp += by,
        Tally::Full => drops.full += by,
    }
}
