ghost use Rattle.std.specs.Prelude.{◌≡◌, ◌<◌, ◌^◌, false, None, IfOk, IfSome, OnOk, OnErr};
ghost use Rattle.vn_types.specs.Interfaces.{half_id_eq};
ghost use Rattle.vn_types.specs.PerStack.{ChangesOnly};
ghost use Rattle.vn_rules.specs.declared.timer.TimerOf.TheVariants.{Arp};
ghost use Rattle.vn_rules.specs.Arp.{new_entry, known_mac, holds_all, holding, is_static, is_down_state};
ghost use Rattle.vn_rules.specs.Resolution.{turn_of};
ghost use Rattle.vn_rules.specs.Timers.{has_timer};
ghost use Rattle.vn_callout.specs.Stacks.{of as timers_of};
ghost use Rattle.vn_arp.specs.Kept.{is_kept_at, without_numbered};
ghost use Rattle.vn_arp.specs.Answers.{turn_as};
ghost use Rattle.vn_arp.specs.Changes.{MayBecome, arm_for, armed_for, changed, released_by, settled};
ghost use Rattle.vn_arp.specs.Listing.{at_of, row_of};

use crate::answers::Turn;
use crate::change::Change;
use crate::gone::At;
use crate::packets::Packets;
use bytes::Bytes;
use std::alloc::Global;
use std::marker::Model;
use vn_callout::Wheel;
use vn_rules::{ArpState, REQUESTS_MAX, Timer};
use vn_types::{HalfId, Ip4, Mac, NoMemory, Sid, same_half};

/// What a stack knows of a neighbour, with the arm number of its timer.
#[derive(Drop)]
pub(crate) struct Neighbour {
    half: HalfId,
    ip: Ip4,
    state: ArpState,
    mac: Option<Mac>,
    requests: u8,
    held: Packets,
    arm: Option<u64>,
}

impl Model for Neighbour {
    ghost use Rattle.vn_types.specs.declared.interface.HalfId.{HalfId};
    ghost use Rattle.vn_arp.specs.Kept.{KeptOf};

    ghost Value = { KeptOf HalfId };

    ghost view = { λ n. record {
      entry = record { half = n.half; ip = n.ip; state = n.state; mac = n.mac; requests = n.requests; held = n.held };
      arm = n.arm;
    } };
}

impl Neighbour {
    /// One of which nothing is known, as the first request goes out.
    pub(crate) fn new(alloc: Global, at: At) -> Neighbour
        ensures { result ≡ record { entry = new_entry at.half at.ip; arm = None } }
    {
        Neighbour {
            half: at.half,
            ip: at.ip,
            state: ArpState::Incomplete,
            mac: None,
            requests: 1,
            held: Packets::new(alloc),
            arm: None,
        }
    }

    pub(crate) fn at(&self) -> At
        ensures { result ≡ at_of self.now.entry }
    {
        At {
            half: self.half,
            ip: self.ip,
        }
    }

    pub(crate) fn half(&self) -> HalfId
        ensures { result ≡ self.now.entry.half }
    {
        self.half
    }

    pub(crate) fn ip(&self) -> Ip4
        ensures { result ≡ self.now.entry.ip }
    {
        self.ip
    }

    /// What a listing tells of it.
    pub(crate) fn row(&self) -> (HalfId, Ip4, Option<Mac>, ArpState)
        ensures { result ≡ row_of self.now.entry }
    {
        (self.half, self.ip, self.mac, self.state)
    }

    pub(crate) fn arm(&self) -> Option<u64>
        ensures { result ≡ self.now.arm }
    {
        self.arm
    }

    /// Whether it is the neighbour of that address on the half.
    pub(crate) fn is_at(&self, at: At) -> bool
        ensures { result ≡ is_kept_at half_id_eq at.half at.ip self.now }
    {
        same_half(self.half, at.half) && self.ip.0 == at.ip.0
    }

    /// Its hardware address, where it is known.
    pub(crate) fn known_mac(&self) -> Option<Mac>
        ensures { result ≡ known_mac self.now.entry }
    {
        match self.state {
            ArpState::Learnt | ArpState::Static => self.mac,
            ArpState::Incomplete | ArpState::Down => None,
        }
    }

    /// Whether it does not reply.
    pub(crate) fn is_down(&self) -> bool
        ensures { result ≡ is_down_state self.now.entry.state }
    {
        self.state == ArpState::Down
    }

    /// Whether its hardware address was set by hand.
    pub(crate) fn is_static(&self) -> bool
        ensures { result ≡ is_static self.now.entry.state }
    {
        self.state == ArpState::Static
    }

    /// What its timer does.
    pub(crate) fn turn(&self) -> Turn
        ensures { result ≡ turn_as (turn_of self.now.entry) }
    {
        match self.state {
            ArpState::Incomplete if self.requests < REQUESTS_MAX => Turn::Ask,
            ArpState::Incomplete => Turn::WentDown {
                dropped: self.held.len(),
            },
            ArpState::Learnt | ArpState::Static | ArpState::Down => Turn::Removed,
        }
    }

    /// One datagram more waits for it. Tells whether the oldest gave way.
    pub(crate) fn hold(&mut self, packet: Bytes) -> Result<bool, NoMemory>
        ensures dropped { IfOk result (λ dropped. dropped ≡ holds_all self.old.entry) }
        ensures held { OnOk result (self.new ≡ record self.old { entry = holding packet self.old.entry }) }
        ensures kept { OnErr result (self.new ≡ self.old) }
    {
        self.held.hold(packet)
    }

    /// It becomes what the change says. What waited for it, and waits no more, is handed out.
    pub(crate) fn apply(&mut self, change: Change) -> Packets
        requires { MayBecome change (Some self.old.entry) }
        ensures released { result ≡ released_by change self.old.entry.held }
        ensures changed { self.new ≡ record self.old { entry = changed change self.old.entry } }
    {
        match change {
            Change::Asked => {
                self.requests += 1;
                self.held.none()
            }
            Change::Down => self.settle(ArpState::Down, self.mac),
            Change::Learnt(mac) => self.settle(ArpState::Learnt, Some(mac)),
            Change::Static(mac) => self.settle(ArpState::Static, Some(mac)),
        }
    }

    /// It is asked no more, and nothing waits for it any more.
    fn settle(&mut self, state: ArpState, mac: Option<Mac>) -> Packets
        ensures released { result ≡ self.old.entry.held }
        ensures settled { self.new ≡ record self.old { entry = settled state mac self.old.entry } }
    {
        self.state = state;
        self.mac = mac;
        self.requests = 0;
        self.held.take_all()
    }

    /// Stops its timer, where one stands, and arms it for the deadline, where there is one.
    pub(crate) fn retime(
        &mut self,
        deadline: Option<u64>,
        sid: Sid,
        wheel: &mut Wheel,
    ) -> Result<(), NoMemory>
        requires { IfSome deadline (λ _. (timers_of wheel.old sid.0).armed < 2 ^ 63) }
        ensures timed { OnOk result (timers_of wheel.new sid.0
            ≡ armed_for deadline (Arp self.old.entry.half self.old.entry.ip)
            (without_numbered self.old.arm (timers_of wheel.old sid.0))) }
        ensures number { OnOk result (self.new
            ≡ record self.old { arm = arm_for deadline (timers_of wheel.old sid.0) }) }
        ensures unused { OnOk result (IfSome deadline (λ _. has_timer (timers_of wheel.old sid.0).armed
            (without_numbered self.old.arm (timers_of wheel.old sid.0)) ≡ false)) }
        ensures stopped { OnErr result (timers_of wheel.new sid.0
            ≡ without_numbered self.old.arm (timers_of wheel.old sid.0)) }
        ensures no_number { OnErr result (self.new ≡ record self.old { arm = None }) }
        ensures others { ChangesOnly sid.0 (timers_of wheel.old) (timers_of wheel.new) }
    {
        stop_timer(self.arm, sid, wheel);
        self.arm = None;
        let Some(deadline) = deadline else {
            return Ok(());
        };
        let what = Timer::Arp {
            half: self.half,
            ip: self.ip,
        };
        let arm = wheel.arm(sid, deadline, what)?;
        self.arm = Some(arm);
        Ok(())
    }
}

/// Stops the timer of the arm number, where there is one.
pub(crate) fn stop_timer(arm: Option<u64>, sid: Sid, wheel: &mut Wheel)
    ensures stopped { timers_of wheel.new sid.0 ≡ without_numbered arm (timers_of wheel.old sid.0) }
    ensures others { ChangesOnly sid.0 (timers_of wheel.old) (timers_of wheel.new) }
{
    if let Some(arm) = arm {
        wheel.stop(sid, arm);
    }
}
