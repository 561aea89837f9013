use crate::tests::fixtures::{FAR, NEAR};
use std::test::Fail;
use vn_callout::{Call, Reply, Timer, replies};
use vn_types::{HalfId, Ip4, Sid};

fn arp(half: HalfId) -> Timer {
    Timer::Arp {
        half,
        ip: Ip4(0x0a00_0009),
    }
}

fn ping(arm: u64) -> Timer {
    Timer::Ping { id: 0, arm }
}

fn arm(sid: u32, deadline: u64, what: Timer) -> Call {
    Call::Arm {
        sid: Sid(sid),
        deadline,
        what,
    }
}

fn due(sid: u32, now: u64) -> Call {
    Call::Due { sid: Sid(sid), now }
}

fn stop(sid: u32, arm: u64) -> Call {
    Call::Stop { sid: Sid(sid), arm }
}

fn stop_of_interface(sid: u32, half: HalfId) -> Call {
    Call::StopOfInterface {
        sid: Sid(sid),
        half,
    }
}

#[test]
fn two_stacks(rt: HostRuntime) -> Result<(), Fail> {
    let rows = [
        // Stack 3 pings a neighbour that never answers: five ARP requests, a second apart, then the
        // entry is down for twenty seconds. The ping is given up after ten.
        (arm(3, 1_000, arp(NEAR)), Reply::Number(0)),
        (arm(3, 10_000, ping(0)), Reply::Number(1)),
        (Call::NextDeadline, Reply::Deadline(Some(1_000))),
        (due(3, 999), Reply::Due(None)),
        (due(3, 1_000), Reply::Due(Some(arp(NEAR)))),
        (arm(3, 2_000, arp(NEAR)), Reply::Number(2)),
        (due(3, 2_000), Reply::Due(Some(arp(NEAR)))),
        (arm(3, 3_000, arp(NEAR)), Reply::Number(3)),
        (due(3, 3_000), Reply::Due(Some(arp(NEAR)))),
        (arm(3, 4_000, arp(NEAR)), Reply::Number(4)),
        (due(3, 4_000), Reply::Due(Some(arp(NEAR)))),
        (arm(3, 5_000, arp(NEAR)), Reply::Number(5)),
        (due(3, 5_000), Reply::Due(Some(arp(NEAR)))),
        (due(3, 5_000), Reply::Due(None)),
        (arm(3, 25_000, arp(NEAR)), Reply::Number(6)),
        (due(3, 10_000), Reply::Due(Some(ping(1)))),
        (due(3, 25_000), Reply::Due(Some(arp(NEAR)))),
        (Call::NextDeadline, Reply::Deadline(None)),
        // Stack 0 counts for itself. Of one deadline, the lesser number fires first.
        (arm(0, 500, arp(NEAR)), Reply::Number(0)),
        (arm(0, 500, arp(FAR)), Reply::Number(1)),
        (arm(3, 500, arp(NEAR)), Reply::Number(7)),
        (due(0, 500), Reply::Due(Some(arp(NEAR)))),
        (stop(3, 1), Reply::Stood(false)),
        (stop_of_interface(3, FAR), Reply::Done),
        (stop_of_interface(0, NEAR), Reply::Done),
        (due(0, 500), Reply::Due(Some(arp(FAR)))),
        (arm(0, 600, arp(FAR)), Reply::Number(2)),
        (arm(0, 600, ping(9)), Reply::Number(3)),
        (stop(0, 2), Reply::Stood(true)),
        (stop(0, 2), Reply::Stood(false)),
        (Call::NextDeadline, Reply::Deadline(Some(500))),
        (Call::StopOfStack { sid: Sid(3) }, Reply::Done),
        (Call::NextDeadline, Reply::Deadline(Some(600))),
        (arm(3, 700, ping(9)), Reply::Number(0)),
        (due(0, 600), Reply::Due(Some(ping(3)))),
        (due(3, 700), Reply::Due(Some(ping(0)))),
    ];
    let mut calls = Vec::new(rt.alloc());
    for row in &rows {
        calls.push(row.0)?;
    }
    let answers = replies(rt.alloc(), &calls).ok().ok_or("no memory")?;
    assert_eq!(rt; answers.len(), rows.len());
    for (row, answer) in rows.iter().zip(answers.as_slice()) {
        assert!(rt; row.1 == *answer);
    }
    Ok(())
}
