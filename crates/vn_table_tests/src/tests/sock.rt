use crate::tests::fixtures::{FAR_IF, NEAR_IF, OWN, PEER};
use bytes::Bytes;
use std::test::Fail;
use vn_sock::{Gram, SendPlan, Socks};
use vn_types::{Errno, If, Ip4, Sid, SockName};

const HERE: Sid = Sid(5);

fn name(rt: &HostRuntime, text: &str) -> Result<SockName, Fail> {
    let name = SockName::read(rt.alloc(), text.as_bytes())
        .ok()
        .ok_or("no memory")?;
    Ok(name.ok_or("no name")?)
}

/// Opens a socket, which must not be refused, and gives its name.
fn open(rt: &HostRuntime, socks: &mut Socks, text: &str) -> Result<SockName, Fail> {
    let answer = socks.open(HERE, name(rt, text)?).ok().ok_or("no memory")?;
    answer.ok().ok_or("refused")?;
    name(rt, text)
}

/// A datagram comes from the peer's port 9 to a port. Whether it was queued, if a socket is there for it.
fn receive(socks: &mut Socks, dport: u16, text: &'static str, via: If) -> Option<bool> {
    let place = socks.demux(HERE, OWN, dport, PEER, 9)?;
    let gram = Gram {
        src: PEER,
        sport: 9,
        octets: Bytes::from_static(text.as_bytes()),
        via,
    };
    Some(socks.deliver(HERE, place, gram).is_ok())
}

/// Whether it goes out from the source and port to port 9 of the peer, with the time to live.
fn is_plan(plan: SendPlan, src: Option<Ip4>, sport: u16, ttl: Option<u8>) -> bool {
    plan.src == src && plan.sport == sport && plan.dst == PEER && plan.dport == 9 && plan.ttl == ttl
}

#[test]
fn names_and_ports(rt: HostRuntime) -> Result<(), Fail> {
    let mut socks = Socks::new(rt.alloc()).ok().ok_or("no memory")?;
    let a = open(&rt, &mut socks, "a")?;
    let b = open(&rt, &mut socks, "b")?;
    let again = socks.open(HERE, name(&rt, "a")?).ok().ok_or("no memory")?;
    assert!(rt; again == Err(Errno::Exist));
    let none = name(&rt, "c")?;
    assert!(rt; socks.bind(HERE, &none, None, 7, true) == Err(Errno::BadF));
    assert!(rt; socks.bind(HERE, &a, Some(PEER), 7, false) == Err(Errno::AddrNotAvail));
    assert!(rt; socks.bind(HERE, &a, Some(OWN), 7, true) == Ok(()));
    assert!(rt; socks.bind(HERE, &a, None, 8, true) == Err(Errno::Inval));

    // A socket without an address overlaps with each address.
    assert!(rt; socks.bind(HERE, &b, None, 7, true) == Err(Errno::AddrInUse));
    assert!(rt; socks.bind(HERE, &b, None, 0, true) == Ok(()));
    let place = socks.demux(HERE, PEER, 49_152, OWN, 1);
    assert!(rt; place == Some(1));
    assert!(rt; socks.close(HERE, &a) == Ok(()));
    assert!(rt; socks.close(HERE, &a) == Err(Errno::BadF));
    socks.purge_stack(HERE);
    assert!(rt; socks.close(HERE, &b) == Err(Errno::BadF));
    Ok(())
}

#[test]
fn what_goes_out(rt: HostRuntime) -> Result<(), Fail> {
    let mut socks = Socks::new(rt.alloc()).ok().ok_or("no memory")?;
    let a = open(&rt, &mut socks, "a")?;
    let unconnected = socks.plan(HERE, &a, None, false);
    assert!(rt; unconnected.err() == Some(Errno::DestAddrReq));
    let first = socks.plan(HERE, &a, Some((PEER, 9)), false);
    let first = first.ok().ok_or("refused")?;
    assert!(rt; is_plan(first, None, 49_152, None));
    socks.sent(HERE, &a, 49_153);
    assert!(rt; socks.ttl(HERE, &a, 3) == Ok(()));
    let no_source = Err(Errno::NetUnreach);
    assert!(rt; socks.connect(HERE, &a, PEER, 9, no_source) == Err(Errno::NetUnreach));
    assert!(rt; socks.connect(HERE, &a, PEER, 9, Ok(OWN)) == Ok(()));
    assert!(rt; socks.connect(HERE, &a, PEER, 9, Ok(OWN)) == Err(Errno::IsConn));
    let second = socks.plan(HERE, &a, None, false).ok().ok_or("refused")?;
    assert!(rt; is_plan(second, Some(OWN), 49_153, Some(3)));

    // The port at the peer is unreachable, which is reported once.
    assert!(rt; !socks.refuse(HERE, OWN, 49_152, PEER, 9));
    assert!(rt; socks.refuse(HERE, OWN, 49_153, PEER, 9));
    let refused = socks.plan(HERE, &a, None, false);
    assert!(rt; refused.err() == Some(Errno::ConnRefused));
    assert!(rt; socks.recv(HERE, &a).err() == Some(Errno::Again));
    Ok(())
}

#[test]
fn what_comes(rt: HostRuntime) -> Result<(), Fail> {
    let mut socks = Socks::new(rt.alloc()).ok().ok_or("no memory")?;
    let a = open(&rt, &mut socks, "a")?;
    assert!(rt; socks.bind(HERE, &a, Some(OWN), 7, true) == Ok(()));
    assert!(rt; receive(&mut socks, 8, "elsewhere", NEAR_IF).is_none());
    assert!(rt; receive(&mut socks, 7, "first", NEAR_IF) == Some(true));
    assert!(rt; receive(&mut socks, 7, "second", FAR_IF) == Some(true));

    // A queue holds 32 datagrams.
    for turn in 2..40 {
        assert!(rt; receive(&mut socks, 7, "again", NEAR_IF) == Some(turn < 32));
    }
    let first = socks.recv(HERE, &a).ok().ok_or("nothing came")?;
    assert_eq!(rt; first.octets.as_slice(), "first".as_bytes());
    assert!(rt; first.src == PEER);
    assert_eq!(rt; first.sport, 9);
    assert!(rt; first.via == NEAR_IF);
    socks.purge_interface(HERE, NEAR_IF);
    socks.purge_address(HERE, OWN);
    let second = socks.recv(HERE, &a).ok().ok_or("nothing came")?;
    assert_eq!(rt; second.octets.as_slice(), "second".as_bytes());
    assert!(rt; socks.recv(HERE, &a).err() == Some(Errno::Again));
    assert!(rt; receive(&mut socks, 7, "late", NEAR_IF).is_none());
    Ok(())
}
