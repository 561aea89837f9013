use crate::tests::fixtures::{FAR, NEAR, OWN};
use bytes::Bytes;
use std::alloc::Global;
use std::marker::Model;
use std::process::Abort;
use std::test::Fail;
use vn_arp::{ArpTable, Learned, Resolved, Turn};
use vn_callout::{Timer, Wheel};
use vn_link::ArpPacket;
use vn_rules::ArpState;
use vn_types::{Covering, Errno, HalfId, If, Ip4, Mac, NoMemory, Sid};

/// The address of the neighbour, and two hardware addresses.
const NINE: Ip4 = Ip4(0x0a00_0009);

const MAC: Mac = Mac([2, 0, 0, 0, 9, 10]);

const OTHER: Mac = Mac([2, 0, 0, 0, 9, 11]);

/// A stack that knows its neighbours, with the wheel of their timers, of which it armed so many at most.
#[derive(Drop)]
struct Stack {
    sid: Sid,
    arps: ArpTable,
    wheel: Wheel,
    armed: u64,
}

impl Model for Stack {
    ghost use Rattle.std.specs.Prelude.{ℕ, ◌≤◌};
    ghost use Rattle.vn_types.specs.Interfaces.{half_id_eq};
    ghost use Rattle.vn_callout.specs.Stacks.{of as timers_of};
    ghost use Rattle.vn_arp.specs.Kept.{KnowsArms};
    ghost use Rattle.vn_arp.specs.Stacks.{of};

    ghost Value = { ℕ };

    ghost view = { λ a. a.armed };

    ghost invariant = { λ a. KnowsArms half_id_eq (of a.arps a.sid.0) (timers_of a.wheel a.sid.0)
        × ((timers_of a.wheel a.sid.0).armed ≤ a.armed) };
}

/// Routes of each interface, which cover one address.
#[derive(Drop)]
struct Covers(Ip4);

impl Covering for Covers {
    ghost use Rattle.std.specs.Prelude.{◌==◌};

    ghost covers = { λ only sid on ip. ip.0 == only.0.0 };

    fn covers(&self, _: Sid, _: If, ip: Ip4) -> bool {
        ip.0 == self.0.0
    }
}

impl Stack {
    fn new(alloc: Global) -> Result<Stack, NoMemory> {
        Ok(Stack {
            sid: Sid(5),
            arps: ArpTable::new(alloc)?,
            wheel: Wheel::new(alloc)?,
            armed: 0,
        })
    }

    /// Sends a datagram to the neighbour by a half.
    fn resolve(&mut self, rt: &impl Abort, half: HalfId, text: &'static str, now: u32) -> Resolved {
        assert!(rt; self.armed < 100);
        let packet = Bytes::from_static(text.as_bytes());
        let now = u64::from(now);
        let answer = self
            .arps
            .resolve(self.sid, half, NINE, packet, now, &mut self.wheel);
        let Ok(resolved) = answer else {
            panic!(rt; "no memory");
        };
        self.armed += 1;
        resolved
    }

    /// The neighbour sends a packet about an address that is on the half.
    fn input(&mut self, rt: &impl Abort, op: u16, sha: Mac, now: u32) -> Learned {
        assert!(rt; self.armed < 100);
        let packet = ArpPacket {
            op,
            sha,
            spa: NINE,
            tha: Mac([0; 6]),
            tpa: OWN,
        };
        let now = u64::from(now);
        let answer = self
            .arps
            .input(self.sid, NEAR, &packet, true, now, &mut self.wheel);
        let Ok(learned) = answer else {
            panic!(rt; "no memory");
        };
        self.armed += 1;
        learned
    }

    /// The turn of the timer that is due by then.
    fn fire(&mut self, rt: &impl Abort, now: u32) -> Turn {
        assert!(rt; self.armed < 100);
        let now = u64::from(now);
        let Some(Timer::Arp { half, ip }) = self.wheel.due(self.sid, now) else {
            panic!(rt; "no timer is due");
        };
        let answer = self.arps.turn(self.sid, half, ip, now, &mut self.wheel);
        let Ok(turn) = answer else {
            panic!(rt; "no memory");
        };
        self.armed += 1;
        turn
    }

    /// Sets the neighbour's hardware address, and tells how many datagrams waited for it.
    fn set_static(&mut self, rt: &impl Abort) -> u64 {
        let answer = self
            .arps
            .set_static(self.sid, NEAR, NINE, MAC, &mut self.wheel);
        let Ok(release) = answer else {
            panic!(rt; "no memory");
        };
        release.len()
    }

    fn delete(&mut self) -> Result<(), Errno> {
        self.arps.delete(self.sid, NINE, &mut self.wheel)
    }

    fn purge_interface(&mut self, half: HalfId) {
        self.arps.purge_interface(self.sid, half, &mut self.wheel);
    }

    fn purge_uncovered(&mut self, half: HalfId, covered: Ip4) {
        self.arps
            .purge_uncovered(self.sid, half, &Covers(covered), &mut self.wheel);
    }
}

#[test]
fn a_reply_releases_what_waits(rt: HostRuntime) -> Result<(), Fail> {
    let mut stack = Stack::new(rt.alloc()).ok().ok_or("no memory")?;
    for turn in 0..17 {
        let answer = stack.resolve(&rt, NEAR, if turn == 1 { "second" } else { "other" }, 0);
        let Resolved::Held { ask, dropped } = answer else {
            return Err("not held".into());
        };
        assert!(rt; ask == (turn == 0));
        assert!(rt; dropped == (turn == 16));
    }
    assert!(rt; stack.arps.hit(stack.sid, NEAR, NINE).is_none());
    let incomplete = (NEAR, NINE, None, ArpState::Incomplete);
    assert!(rt; stack.arps.at(stack.sid, 0) == Some(incomplete));

    // A reply is not replied to.
    let mut learned = stack.input(&rt, 2, MAC, 700);
    assert!(rt; !learned.reply);
    assert_eq!(rt; learned.release.len(), 16);
    let first = learned.release.take().ok_or("nothing waited")?;
    assert_eq!(rt; first.as_slice(), "second".as_bytes());
    assert!(rt; stack.arps.hit(stack.sid, NEAR, NINE) == Some(MAC));
    let learnt = (NEAR, NINE, Some(MAC), ArpState::Learnt);
    assert!(rt; stack.arps.at(stack.sid, 0) == Some(learnt));
    assert!(rt; stack.input(&rt, 1, OTHER, 800).reply);
    let Resolved::Hit { mac, packet } = stack.resolve(&rt, NEAR, "last", 900) else {
        return Err("not known".into());
    };
    assert!(rt; mac == OTHER);
    assert_eq!(rt; packet.as_slice(), "last".as_bytes());
    Ok(())
}

#[test]
fn five_requests_without_a_reply(rt: HostRuntime) -> Result<(), Fail> {
    let mut stack = Stack::new(rt.alloc()).ok().ok_or("no memory")?;
    stack.resolve(&rt, NEAR, "lost", 0);
    for now in [1_000, 2_000, 3_000, 4_000] {
        assert!(rt; stack.fire(&rt, now) == Turn::Ask);
    }
    assert!(rt; !stack.arps.is_down(stack.sid, NEAR, NINE));
    assert!(rt; stack.fire(&rt, 5_000) == Turn::WentDown { dropped: 1 });
    assert!(rt; stack.arps.is_down(stack.sid, NEAR, NINE));
    let answer = stack.resolve(&rt, NEAR, "refused", 24_999);
    assert!(rt; matches!(answer, Resolved::Down(_)));
    assert!(rt; stack.fire(&rt, 25_000) == Turn::Removed);
    assert!(rt; stack.arps.at(stack.sid, 0).is_none());
    Ok(())
}

#[test]
fn set_by_hand(rt: HostRuntime) -> Result<(), Fail> {
    let mut stack = Stack::new(rt.alloc()).ok().ok_or("no memory")?;
    stack.resolve(&rt, NEAR, "waits", 0);
    assert_eq!(rt; stack.set_static(&rt), 1);
    let fixed = (NEAR, NINE, Some(MAC), ArpState::Static);
    assert!(rt; stack.arps.at(stack.sid, 0) == Some(fixed));
    assert_eq!(rt; stack.input(&rt, 2, OTHER, 10).release.len(), 0);
    assert!(rt; stack.arps.hit(stack.sid, NEAR, NINE) == Some(MAC));
    assert!(rt; stack.delete() == Ok(()));
    assert!(rt; stack.delete() == Err(Errno::NoEnt));
    assert!(rt; stack.arps.hit(stack.sid, NEAR, NINE).is_none());
    Ok(())
}

#[test]
fn entries_of_a_half_go(rt: HostRuntime) -> Result<(), Fail> {
    let mut stack = Stack::new(rt.alloc()).ok().ok_or("no memory")?;
    stack.resolve(&rt, FAR, "beyond", 0);
    stack.resolve(&rt, NEAR, "this side", 0);
    let near = (NEAR, NINE, None, ArpState::Incomplete);
    let far = (FAR, NINE, None, ArpState::Incomplete);
    stack.purge_uncovered(NEAR, NINE);
    assert!(rt; stack.arps.at(stack.sid, 0) == Some(near));
    assert!(rt; stack.arps.at(stack.sid, 1) == Some(far));
    stack.purge_uncovered(NEAR, OWN);
    assert!(rt; stack.arps.at(stack.sid, 0) == Some(far));
    assert!(rt; stack.arps.at(stack.sid, 1).is_none());
    stack.purge_interface(FAR);
    assert!(rt; stack.arps.at(stack.sid, 0).is_none());
    Ok(())
}
