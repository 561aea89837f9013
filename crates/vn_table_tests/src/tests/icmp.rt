ghost use Rattle.std.specs.Prelude.{◌≡◌};

use crate::tests::fixtures::{FAR_IF, NEAR_IF, OWN, PEER};
use std::test::Fail;
use vn_callout::Wheel;
use vn_icmp::{Ping, Pings, may_answer};
use vn_ip4fmt::Ip4View;
use vn_types::{If, Sid};

fn ping(id: u16, out: If, arm: u64) -> Ping
    ensures { result.id ≡ id }
{
    Ping {
        id,
        src: OWN,
        dst: PEER,
        out,
        arm,
    }
}

#[test]
fn two_stacks(rt: HostRuntime) -> Result<(), Fail> {
    let mut pings = Pings::new(rt.alloc()).ok().ok_or("no memory")?;
    let mut wheel = Wheel::new(rt.alloc()).ok().ok_or("no memory")?;
    for (sid, id, out) in [
        (0, 0, NEAR_IF),
        (0, 1, FAR_IF),
        (9, 0, NEAR_IF),
        (0, 2, NEAR_IF),
    ] {
        let sid = Sid(sid);
        assert!(rt; pings.next_id(sid) == id);
        pings
            .add(sid, ping(id, out, u64::from(id)))
            .ok()
            .ok_or("no memory")?;
    }
    assert!(rt; pings.answer(Sid(0), 0, OWN).is_none());
    assert!(rt; pings.answer(Sid(0), 0, PEER) == Some(ping(0, NEAR_IF, 0)));
    assert!(rt; pings.answer(Sid(0), 0, PEER).is_none());
    assert!(rt; pings.error(Sid(0), 1, OWN, PEER) == Some(ping(1, FAR_IF, 1)));
    assert!(rt; pings.timeout(Sid(9), 0) == Some(ping(0, NEAR_IF, 0)));
    pings.purge_interface(Sid(0), FAR_IF, &mut wheel);
    assert!(rt; pings.timeout(Sid(0), 2) == Some(ping(2, NEAR_IF, 2)));
    pings.purge_source(Sid(0), OWN, &mut wheel);
    assert!(rt; pings.next_id(Sid(0)) == 3);
    pings.purge_stack(Sid(0), &mut wheel);
    assert!(rt; pings.next_id(Sid(0)) == 0);
    Ok(())
}

#[test]
fn errors_are_kept_back(rt: HostRuntime) -> Result<(), Fail> {
    let rows = [
        (8, false, true),
        (0, false, true),
        (8, true, false),
        (3, false, false),
        (11, false, false),
    ];
    for (kind, is_broadcast, want) in rows {
        // An ICMP message of one octet from 10.0.0.1 to 10.0.0.2.
        let octets = [
            0x45, 0, 0, 21, 0, 0, 0, 0, 64, 1, 0x66, 0xe6, 10, 0, 0, 1, 10, 0, 0, 2, kind,
        ];
        let view = Ip4View::read(&octets).ok().ok_or("no datagram")?;
        assert!(rt; may_answer(&view, is_broadcast) == want);
    }
    Ok(())
}
