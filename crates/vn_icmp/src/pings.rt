ghost use Rattle.std.specs.Prelude.{◌≡◌, ℕ, true, List, OnOk, OnErr, IfOk};
ghost use Rattle.vn_types.specs.Interfaces.{half_id_eq};
ghost use Rattle.vn_types.specs.PerStack.{ChangesOnly};
ghost use Rattle.vn_rules.specs.Pings.{no_pings, after_ping, is_answered_by, is_quoted_by, is_timed_by, is_from, is_out_by, awaited_by, awaited_for, timed_by, after_first, pings_without, timers_without};
ghost use Rattle.vn_callout.specs.Stacks.{of as timers_of};
ghost use Rattle.vn_icmp.specs.Stacks.{Held, of};
ghost use Rattle.vn_icmp.specs.Which.{is_one};

use crate::awaited::Awaited;
use crate::timers::stop_timers;
use crate::which::Which;
use std::alloc::Global;
use std::marker::Model;
use vn_callout::Wheel;
use vn_rules::Ping;
use vn_types::{If, Ip4, NoMemory, PerStack, Sid};

/// The awaited pings of all stacks, seen as a list of stacks by their numbers. Only `add` takes memory.
#[derive(Drop)]
pub struct Pings {
    stacks: PerStack<Awaited>,
}

impl Model for Pings {
    ghost Value = { List Held };

    ghost view = { λ a. a.stacks };
}

impl Pings {
    /// A table in which no stack sent a ping.
    pub fn new(alloc: Global) -> Result<Pings, NoMemory>
        ensures { IfOk result (λ pings. (q : ℕ) → of pings q ≡ no_pings) }
    {
        Ok(Pings {
            stacks: PerStack::new(alloc),
        })
    }

    /// The identifier of a stack's next request.
    pub fn next_id(&self, sid: Sid) -> u16
        ensures { result ≡ (of self.now sid.0).next }
    {
        match self.stacks.at(sid) {
            Some(awaited) => awaited.next(),
            None => 0,
        }
    }

    /// A ping that was sent with the next identifier is awaited, behind the others of the stack.
    pub fn add(&mut self, sid: Sid, ping: Ping) -> Result<(), NoMemory>
        requires { ping.id ≡ (of self.old sid.0).next }
        ensures added { OnOk result (of self.new sid.0 ≡ after_ping ping (of self.old sid.0)) }
        ensures no_memory { OnErr result (of self.new sid.0 ≡ of self.old sid.0) }
        ensures others { ChangesOnly sid.0 (of self.old) (of self.new) }
    {
        self.stacks.at_or_new(sid)?.add(ping)
    }

    /// Takes out the first awaited ping of a stack that a reply answers (RFC 792).
    pub fn answer(&mut self, sid: Sid, id: u16, from: Ip4) -> Option<Ping>
        ensures first { result ≡ awaited_by id from (of self.old sid.0) }
        ensures left { of self.new sid.0
            ≡ after_first (is_answered_by id from) (of self.old sid.0) }
        ensures others { ChangesOnly sid.0 (of self.old) (of self.new) }
    {
        self.stacks
            .at_mut(sid)?
            .take(Which::AnsweredBy { id, from })
    }

    /// Takes out the first awaited ping of a stack that an error is about, by what it quotes (RFC 792).
    pub fn error(&mut self, sid: Sid, id: u16, src: Ip4, dst: Ip4) -> Option<Ping>
        ensures first { result ≡ awaited_for id src dst (of self.old sid.0) }
        ensures left { of self.new sid.0
            ≡ after_first (is_quoted_by id src dst) (of self.old sid.0) }
        ensures others { ChangesOnly sid.0 (of self.old) (of self.new) }
    {
        self.stacks
            .at_mut(sid)?
            .take(Which::QuotedBy { id, src, dst })
    }

    /// Takes out the first awaited ping of a stack whose timer has the arm number.
    pub fn timeout(&mut self, sid: Sid, arm: u64) -> Option<Ping>
        ensures first { result ≡ timed_by arm (of self.old sid.0) }
        ensures left { of self.new sid.0 ≡ after_first (is_timed_by arm) (of self.old sid.0) }
        ensures others { ChangesOnly sid.0 (of self.old) (of self.new) }
    {
        self.stacks.at_mut(sid)?.take(Which::TimedBy { arm })
    }

    /// Takes out the awaited pings of a stack that went out by the interface, with their timers.
    pub fn purge_interface(&mut self, sid: Sid, out: If, wheel: &mut Wheel)
        ensures purged { of self.new sid.0
            ≡ pings_without (is_out_by half_id_eq out) (of self.old sid.0) }
        ensures stopped { timers_of wheel.new sid.0
            ≡ timers_without (is_out_by half_id_eq out) (of self.old sid.0).awaited
            (timers_of wheel.old sid.0) }
        ensures others { ChangesOnly sid.0 (of self.old) (of self.new) }
        ensures other_timers { ChangesOnly sid.0 (timers_of wheel.old) (timers_of wheel.new) }
    {
        self.purge(sid, Which::OutBy(out), wheel);
    }

    /// Takes out the awaited pings of a stack that were sent from the address, with their timers.
    pub fn purge_source(&mut self, sid: Sid, src: Ip4, wheel: &mut Wheel)
        ensures purged { of self.new sid.0 ≡ pings_without (is_from src) (of self.old sid.0) }
        ensures stopped { timers_of wheel.new sid.0
            ≡ timers_without (is_from src) (of self.old sid.0).awaited
            (timers_of wheel.old sid.0) }
        ensures others { ChangesOnly sid.0 (of self.old) (of self.new) }
        ensures other_timers { ChangesOnly sid.0 (timers_of wheel.old) (timers_of wheel.new) }
    {
        self.purge(sid, Which::From(src), wheel);
    }

    /// Takes out all awaited pings of a stack with their timers. Its next identifier is 0 again.
    pub fn purge_stack(&mut self, sid: Sid, wheel: &mut Wheel)
        ensures purged { of self.new sid.0 ≡ no_pings }
        ensures stopped { timers_of wheel.new sid.0
            ≡ timers_without (λ _. true) (of self.old sid.0).awaited (timers_of wheel.old sid.0) }
        ensures others { ChangesOnly sid.0 (of self.old) (of self.new) }
        ensures other_timers { ChangesOnly sid.0 (timers_of wheel.old) (timers_of wheel.new) }
    {
        let Some(awaited) = self.stacks.at_mut(sid) else {
            return;
        };
        stop_timers(awaited.as_slice(), Which::Any, sid, wheel);
        awaited.clear();
    }

    fn purge(&mut self, sid: Sid, which: Which, wheel: &mut Wheel)
        ensures purged { of self.new sid.0 ≡ pings_without (is_one which) (of self.old sid.0) }
        ensures stopped { timers_of wheel.new sid.0
            ≡ timers_without (is_one which) (of self.old sid.0).awaited (timers_of wheel.old sid.0) }
        ensures others { ChangesOnly sid.0 (of self.old) (of self.new) }
        ensures other_timers { ChangesOnly sid.0 (timers_of wheel.old) (timers_of wheel.new) }
    {
        let Some(awaited) = self.stacks.at_mut(sid) else {
            return;
        };
        stop_timers(awaited.as_slice(), which, sid, wheel);
        awaited.purge(which);
    }
}
