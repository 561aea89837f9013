use crate::tests::fixtures::{FAR_IF, NEAR_IF, ip};
use std::test::Fail;
use vn_inaddr::{Addr, Addrs};
use vn_types::{Errno, If, Sid};

fn addr(on: If, octets: [u8; 4], len: u8) -> Addr {
    Addr {
        on,
        ip: ip(octets),
        len,
    }
}

#[test]
fn two_stacks(rt: HostRuntime) -> Result<(), Fail> {
    let adds = [
        (0, addr(If::Lo0, [127, 0, 0, 1], 8), None),
        (0, addr(NEAR_IF, [127, 0, 0, 1], 8), Some(Errno::Inval)),
        (0, addr(NEAR_IF, [10, 0, 0, 0], 24), Some(Errno::Inval)),
        (0, addr(NEAR_IF, [10, 0, 0, 255], 24), Some(Errno::Inval)),
        (0, addr(NEAR_IF, [10, 0, 0, 1], 0), Some(Errno::Inval)),
        (0, addr(NEAR_IF, [0, 0, 0, 1], 8), Some(Errno::Inval)),
        (0, addr(NEAR_IF, [224, 0, 0, 1], 24), Some(Errno::Inval)),
        (0, addr(NEAR_IF, [10, 0, 0, 1], 24), None),
        (0, addr(FAR_IF, [10, 0, 0, 1], 16), Some(Errno::Exist)),
        // Two hosts have all of a network of 31 bits (RFC 3021).
        (0, addr(FAR_IF, [10, 0, 1, 254], 31), None),
        (0, addr(FAR_IF, [10, 0, 1, 255], 31), None),
        (0, addr(NEAR_IF, [10, 0, 0, 2], 24), None),
        (9, addr(NEAR_IF, [10, 0, 0, 1], 30), None),
        (9, addr(FAR_IF, [223, 255, 255, 1], 24), None),
        (9, addr(FAR_IF, [10, 1, 0, 0], 32), None),
        (9, addr(FAR_IF, [10, 2, 0, 3], 30), Some(Errno::Inval)),
        (9, addr(FAR_IF, [10, 2, 0, 2], 30), None),
    ];
    let mut addrs = Addrs::new(rt.alloc()).ok().ok_or("no memory")?;
    for (sid, addr, want) in adds {
        assert!(rt; addr.len <= 32);
        let answer = addrs.add(Sid(sid), addr).ok().ok_or("no memory")?;
        assert!(rt; answer.err() == want);
    }

    let here = Sid(0);
    let tests = [
        ("local", addrs.local(here, ip([10, 0, 1, 255])), true),
        (
            "local elsewhere",
            addrs.local(Sid(9), ip([10, 0, 1, 255])),
            false,
        ),
        (
            "on",
            addrs.on_interface(here, FAR_IF, ip([10, 0, 1, 254])),
            true,
        ),
        (
            "on the other side",
            addrs.on_interface(here, NEAR_IF, ip([10, 0, 1, 254])),
            false,
        ),
        (
            "broadcast",
            addrs.broadcast(here, ip([10, 0, 0, 255])),
            true,
        ),
        (
            "broadcast of /31",
            addrs.broadcast(here, ip([10, 0, 1, 255])),
            false,
        ),
        (
            "broadcast of lo0",
            addrs.broadcast(here, ip([127, 255, 255, 255])),
            false,
        ),
        (
            "broadcast of /30",
            addrs.broadcast(Sid(9), ip([10, 0, 0, 3])),
            true,
        ),
    ];
    for (what, answer, want) in tests {
        assert_eq!(rt; answer, want, "{what}");
    }

    let one = Some(ip([10, 0, 0, 1]));
    assert!(rt; addrs.source_for(here, NEAR_IF, ip([10, 0, 0, 77])) == one);
    assert!(rt;
        addrs
            .source_for(here, NEAR_IF, ip([10, 0, 1, 77]))
            .is_none()
    );
    assert!(rt; addrs.first(here, FAR_IF) == Some(ip([10, 0, 1, 254])));
    let removed = addrs.remove(here, NEAR_IF, ip([10, 0, 0, 1]));
    assert!(rt; removed == Ok(addr(NEAR_IF, [10, 0, 0, 1], 24)));
    let again = addrs.remove(here, NEAR_IF, ip([10, 0, 0, 1]));
    assert!(rt; again == Err(Errno::AddrNotAvail));
    addrs.purge_interface(here, FAR_IF);
    assert!(rt; addrs.at(here, 0) == Some(addr(If::Lo0, [127, 0, 0, 1], 8)));
    assert!(rt; addrs.at(here, 1) == Some(addr(NEAR_IF, [10, 0, 0, 2], 24)));
    assert!(rt; addrs.at(here, 2).is_none());
    assert!(rt; addrs.first(Sid(9), NEAR_IF) == one);
    assert!(rt; addrs.at(Sid(9), 1) == Some(addr(FAR_IF, [223, 255, 255, 1], 24)));
    assert!(rt; addrs.at(Sid(9), 2) == Some(addr(FAR_IF, [10, 1, 0, 0], 32)));
    assert!(rt; addrs.at(Sid(9), 3) == Some(addr(FAR_IF, [10, 2, 0, 2], 30)));
    assert!(rt; addrs.at(Sid(9), 4).is_none());
    Ok(())
}
