use crate::tests::fixtures::{FAR, NEAR, ip};
use std::alloc::Global;
use std::test::Fail;
use vn_route::{Route, Routes, Target};
use vn_rules::lies_in;
use vn_types::{Errno, HalfId, If, Prefix, Sid};

fn prefix(octets: [u8; 4], len: u8) -> Prefix {
    Prefix {
        net: ip(octets),
        len,
    }
}

fn route(octets: [u8; 4], len: u8, target: Target) -> Option<Route> {
    Some(Route {
        to: prefix(octets, len),
        target,
    })
}

fn gateway(octets: [u8; 4], on: HalfId) -> Target {
    Target::Gateway {
        via: ip(octets),
        on,
    }
}

/// Routes by which stack 0 reaches itself and two networks, and stack 9 one of these.
fn linked(alloc: Global) -> Result<Routes, &'static str> {
    let mut routes = Routes::new(alloc).ok().ok_or("no memory")?;
    let links = [
        (0, prefix([127, 0, 0, 0], 8), If::Lo0),
        (0, prefix([10, 0, 0, 0], 8), If::Half(FAR)),
        (0, prefix([10, 0, 0, 0], 24), If::Half(NEAR)),
        (9, prefix([10, 0, 0, 0], 24), If::Half(FAR)),
    ];
    for (sid, to, on) in links {
        if !(to.len <= 32 && lies_in(to.net, to) && routes.can_link(Sid(sid), to, on)) {
            return Err("no link");
        }
        routes.link(Sid(sid), to, on).ok().ok_or("no memory")?;
    }
    Ok(routes)
}

/// The same, and gateway routes of stack 0, the last three of which are refused.
fn routed(alloc: Global) -> Result<Routes, &'static str> {
    let mut routes = linked(alloc)?;
    let adds = [
        (prefix([0, 0, 0, 0], 0), [10, 0, 0, 254], None),
        (prefix([10, 9, 0, 0], 16), [10, 0, 1, 1], None),
        (prefix([10, 0, 0, 0], 24), [10, 0, 0, 1], Some(Errno::Exist)),
        (
            prefix([10, 1, 0, 0], 16),
            [11, 0, 0, 1],
            Some(Errno::NetUnreach),
        ),
        (
            prefix([10, 1, 0, 0], 16),
            [127, 0, 0, 1],
            Some(Errno::NetUnreach),
        ),
    ];
    // A way by 11.0.0.1 leads over the default route, which is no interface route.
    for (to, via, want) in adds {
        if !(to.len <= 32 && lies_in(to.net, to)) {
            return Err("no network");
        }
        let answer = routes.add(Sid(0), to, ip(via)).ok().ok_or("no memory")?;
        if answer.err() != want {
            return Err("answer");
        }
    }
    Ok(routes)
}

#[test]
fn the_longest_is_chosen(rt: HostRuntime) -> Result<(), Fail> {
    let routes = routed(rt.alloc())?;
    let near = Target::Link(If::Half(NEAR));
    let far = Target::Link(If::Half(FAR));
    let rows = [
        (0, [10, 0, 0, 9], route([10, 0, 0, 0], 24, near)),
        (0, [10, 0, 1, 9], route([10, 0, 0, 0], 8, far)),
        (
            0,
            [10, 9, 1, 9],
            route([10, 9, 0, 0], 16, gateway([10, 0, 1, 1], FAR)),
        ),
        (
            0,
            [11, 0, 0, 9],
            route([0, 0, 0, 0], 0, gateway([10, 0, 0, 254], NEAR)),
        ),
        (9, [11, 0, 0, 9], None),
    ];
    for (sid, to, want) in rows {
        assert!(rt; routes.lookup(Sid(sid), ip(to)) == want);
    }
    assert!(rt; routes.covering_link(Sid(0), ip([10, 9, 1, 9])) == Some(If::Half(FAR)));
    assert!(rt; routes.covering_link(Sid(0), ip([11, 0, 0, 9])).is_none());
    assert!(rt; routes.covers(Sid(0), If::Half(FAR), ip([10, 0, 0, 9])));
    assert!(rt; !routes.covers(Sid(0), If::Half(NEAR), ip([10, 0, 1, 9])));
    Ok(())
}

#[test]
fn what_stood_on_a_route_goes_with_it(rt: HostRuntime) -> Result<(), Fail> {
    let mut routes = routed(rt.alloc())?;
    let class_a = prefix([10, 0, 0, 0], 8);
    assert!(rt; class_a.len <= 32 && lies_in(class_a.net, class_a));
    assert!(rt; routes.delete(Sid(0), class_a) == Err(Errno::Srch));
    routes.unlink(Sid(0), class_a, If::Half(FAR));
    let rows = [
        route([0, 0, 0, 0], 0, gateway([10, 0, 0, 254], NEAR)),
        route([10, 0, 0, 0], 24, Target::Link(If::Half(NEAR))),
        route([127, 0, 0, 0], 8, Target::Link(If::Lo0)),
        None,
    ];
    for (place, want) in rows.iter().enumerate() {
        assert!(rt; routes.at(Sid(0), place as u64) == *want);
    }
    Ok(())
}

#[test]
fn routes_of_an_interface_go(rt: HostRuntime) -> Result<(), Fail> {
    let mut routes = routed(rt.alloc())?;
    let default = prefix([0, 0, 0, 0], 0);
    assert!(rt; default.len <= 32 && lies_in(default.net, default));
    assert!(rt; routes.delete(Sid(0), default) == Ok(()));
    routes.purge_interface(Sid(0), If::Half(FAR));
    assert!(rt; routes.at(Sid(0), 0) == route([10, 0, 0, 0], 24, Target::Link(If::Half(NEAR))));
    assert!(rt; routes.at(Sid(9), 0) == route([10, 0, 0, 0], 24, Target::Link(If::Half(FAR))));
    Ok(())
}
