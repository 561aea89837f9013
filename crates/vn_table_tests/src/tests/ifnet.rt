ghost use Rattle.std.specs.Prelude.{◌≡◌, None, OnOk, true};
ghost use Rattle.vn_ifnet.specs.Stacks.{named, of};

use std::test::Fail;
use vn_ifnet::IfTable;
use vn_types::{HalfId, If, IfName, Sid, Side, Standing};

fn half(pair: u32, side: Side) -> HalfId {
    HalfId { pair, side }
}

fn name(unit: u32, side: Side) -> IfName {
    IfName::Epair { unit, side }
}

/// Attaches an interface where its name is free, and tells whether it was.
fn attach(table: &mut IfTable, sid: Sid, what: If, name: IfName) -> bool {
    table.find(sid, name).is_none() && table.attach(sid, what, name).is_ok()
}

#[test]
fn two_stacks(rt: HostRuntime) -> Result<(), Fail> {
    let mut table = IfTable::new(rt.alloc()).ok().ok_or("no memory")?;
    let a = half(5, Side::A);
    let b = half(5, Side::B);
    let (first, second) = (name(0, Side::A), name(0, Side::B));
    assert!(rt; attach(&mut table, Sid(0), If::Lo0, IfName::Lo0));
    assert!(rt; attach(&mut table, Sid(0), If::Half(a), first));
    assert!(rt; !attach(&mut table, Sid(0), If::Half(b), first));
    assert!(rt; attach(&mut table, Sid(0), If::Half(b), second));
    assert!(rt; attach(&mut table, Sid(2), If::Half(half(9, Side::A)), first));
    assert!(rt; table.reserve_name(Sid(0), first, a).is_ok());
    assert!(rt; table.find(Sid(0), first) == Some(If::Half(a)));

    // A name that left is still taken at home, but not for its own half.
    table.detach(Sid(0), If::Half(a));
    assert!(rt; !table.stands(Sid(0), first));
    assert!(rt; table.stands(Sid(2), first));
    assert!(rt; table.taken(Sid(0), first, None));
    assert!(rt; table.taken(Sid(0), first, Some(b)));
    assert!(rt; !table.taken(Sid(0), first, Some(a)));
    table.release_name(Sid(0), first);
    assert!(rt; !table.taken(Sid(0), first, None));

    assert!(rt; attach(&mut table, Sid(0), If::Half(a), first));
    assert_eq!(rt; table.count(Sid(0)), 3);
    assert!(rt; table.at(Sid(0), 0) == Some(If::Lo0));
    assert!(rt; table.at(Sid(0), 1) == Some(If::Half(b)));
    assert!(rt; table.at(Sid(0), 2) == Some(If::Half(a)));
    assert!(rt; table.at(Sid(0), 3).is_none());
    assert_eq!(rt; table.count(Sid(7)), 0);
    Ok(())
}
