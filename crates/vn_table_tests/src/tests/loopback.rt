ghost use Rattle.std.specs.Prelude.{IsSome};
ghost use Rattle.vn_types.specs.PerStack.{ChangesOnly};
ghost use Rattle.vn_loop.specs.Queues.{of};

use bytes::Bytes;
use std::test::Fail;
use vn_loop::Loops;
use vn_types::{Errno, Sid};

/// Puts a datagram into a queue so many times, and tells how often it was queued.
fn fill(loops: &mut Loops, sid: Sid, times: u32) -> u32
    requires { IsSome (of loops.old sid.0) }
    ensures made { IsSome (of loops.new sid.0) }
    ensures others { ChangesOnly sid.0 (of loops.old) (of loops.new) }
{
    let mut queued = 0;
    for _turn in 0..times {
        if loops.put(sid, Bytes::from_static(b"again")).is_ok() {
            queued += 1;
        }
    }
    queued
}

#[test]
fn two_stacks(rt: HostRuntime) -> Result<(), Fail> {
    let order = [Sid(0), Sid(3)];
    let mut loops = Loops::new(rt.alloc()).ok().ok_or("no memory")?;
    assert!(rt; loops.make(Sid(3)).is_ok());
    assert!(rt; loops.make(Sid(0)).is_ok());
    assert!(rt; loops.next_queued(&order).is_none());

    // A queue holds 256 datagrams, and no other queue counts.
    assert_eq!(rt; fill(&mut loops, Sid(3), 300), 256);
    assert!(rt; loops.put(Sid(3), Bytes::new()) == Err(Errno::NoBufs));
    assert_eq!(rt; loops.free(Sid(3)), 0);
    assert_eq!(rt; loops.free(Sid(0)), 256);
    assert!(rt; loops.next_queued(&order) == Some(Sid(3)));

    assert!(rt; loops.put(Sid(0), Bytes::from_static(b"first")).is_ok());
    assert!(rt; loops.put(Sid(0), Bytes::from_static(b"second")).is_ok());
    assert_eq!(rt; loops.free(Sid(0)), 254);
    assert!(rt; loops.next_queued(&order) == Some(Sid(0)));
    let first = loops.take(Sid(0)).ok_or("nothing is queued")?;
    assert_eq!(rt; first.as_slice(), "first".as_bytes());
    let second = loops.take(Sid(0)).ok_or("nothing is queued")?;
    assert_eq!(rt; second.as_slice(), "second".as_bytes());
    assert!(rt; loops.take(Sid(0)).is_none());

    loops.remove(Sid(3));
    assert!(rt; loops.next_queued(&order).is_none());
    Ok(())
}
