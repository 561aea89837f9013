ghost use Rattle.std.specs.Prelude.{IsSome, false};
ghost use Rattle.vn_epair.specs.Pairs.{of};

use bytes::Bytes;
use std::test::Fail;
use vn_epair::Pairs;
use vn_types::{Errno, HalfId, IfName, Mac, Sid, Side, Standing};

/// Stacks in which nothing stands.
struct Nobody;

impl Standing for Nobody {
    ghost stands = { λ _ _ _. false };

    fn stands(&self, _: Sid, _: IfName) -> bool {
        false
    }
}

/// Sends a frame so many times, and tells how often it was queued.
fn fill(pairs: &mut Pairs, from: HalfId, times: u32) -> u32
    requires { IsSome (of pairs.old from.pair) }
    ensures { IsSome (of pairs.new from.pair) }
{
    let mut queued = 0;
    for _turn in 0..times {
        if pairs.send(from, Bytes::from_static(b"again")).is_ok() {
            queued += 1;
        }
    }
    queued
}

#[test]
fn a_pair(rt: HostRuntime) -> Result<(), Fail> {
    let home = Sid(3);
    let mut pairs = Pairs::new(rt.alloc()).ok().ok_or("no memory")?;
    assert_eq!(rt; pairs.lowest_free(home, &Nobody), 0);
    let refused = pairs.create(home, 16_777_216).ok().ok_or("no memory")?;
    assert!(rt; refused == Err(Errno::Inval));
    let Ok(Ok(0)) = pairs.create(home, 0x01_0203) else {
        return Err("no pair".into());
    };
    let again = pairs.create(home, 0x01_0203).ok().ok_or("no memory")?;
    assert!(rt; again == Err(Errno::Exist));
    assert!(rt; pairs.find(home, 0x01_0203) == Some(0));
    assert!(rt; pairs.find(Sid(4), 0x01_0203).is_none());

    let a = HalfId {
        pair: 0,
        side: Side::A,
    };
    let b = HalfId {
        pair: 0,
        side: Side::B,
    };
    assert!(rt; pairs.home(0) == home);
    assert_eq!(rt; pairs.unit(0), 0x01_0203);
    assert!(rt; pairs.mac(b) == Mac([2, 0, 1, 2, 3, 11]));
    pairs.set_mac(b, Mac([2, 0, 0, 0, 0, 1]));
    assert!(rt; pairs.mac(b) == Mac([2, 0, 0, 0, 0, 1]));
    pairs.set_stands(b, Sid(9));
    assert!(rt; pairs.stands(b) == Sid(9));
    assert!(rt; pairs.send(a, Bytes::new()) == Err(Errno::NetDown));
    pairs.set_up(a, true);
    assert!(rt; pairs.is_up(a));

    // A queue holds 128 frames, and they come to the other half alone.
    assert!(rt; pairs.send(a, Bytes::from_static(b"first")).is_ok());
    assert_eq!(rt; fill(&mut pairs, a, 200), 127);
    assert!(rt; pairs.send(a, Bytes::new()) == Err(Errno::NoBufs));
    assert!(rt; pairs.take(a).is_none());
    assert!(rt; pairs.next_queued(&[Sid(0), home]) == Some(b));
    assert!(rt; pairs.next_queued(&[Sid(9)]).is_none());
    let first = pairs.take(b).ok_or("nothing comes")?;
    assert_eq!(rt; first.as_slice(), "first".as_bytes());
    pairs.clear(0);
    assert!(rt; pairs.take(b).is_none());
    pairs.destroy(0);
    assert!(rt; pairs.find(home, 0x01_0203).is_none());
    Ok(())
}
