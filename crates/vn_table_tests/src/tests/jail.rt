ghost use Rattle.std.specs.Prelude.{◌≡◌, ◌+◌, ◌<◌, ◌≤◌, IfOk, false, length};
ghost use Rattle.vn_types.specs.Paths.{is_host};

use std::test::Fail;
use vn_jail::Jails;
use vn_types::{Errno, Path, Sid, read_path};

fn path(rt: &HostRuntime, text: &str) -> Result<Path, Fail> {
    let path = read_path(rt.alloc(), text.as_bytes())
        .ok()
        .ok_or("no memory")?;
    Ok(path.ok_or("no path")?)
}

/// The path of a jail, which is not host's.
fn jail_path(rt: &HostRuntime, text: &str) -> Result<Path, Fail>
    ensures { IfOk result (λ jail. is_host jail ≡ false) }
{
    let jail = path(rt, text)?;
    if jail.depth() == 0 {
        return Err("host".into());
    }
    Ok(jail)
}

fn make(
    rt: &HostRuntime,
    jails: &mut Jails,
    text: &str,
    limit: u32,
) -> Result<Result<Sid, Errno>, Fail>
    requires { length jails.old < 100 }
    ensures { length jails.new ≤ length jails.old + 1 }
{
    let jail = jail_path(rt, text)?;
    Ok(jails.create(&jail, limit).ok().ok_or("no memory")?)
}

/// Ends a jail that has no children.
fn remove(rt: &HostRuntime, jails: &mut Jails, text: &str) -> Result<(), Fail> {
    let jail = jail_path(rt, text)?;
    let Ok(Ok(sids)) = jails.teardown(&jail) else {
        return Err("no jail".into());
    };
    let [sid] = sids.as_slice() else {
        return Err("children".into());
    };
    jails.law_of_tree();
    jails.remove(*sid);
    Ok(())
}

#[test]
fn a_tree(rt: HostRuntime) -> Result<(), Fail> {
    let mut jails = Jails::new(rt.alloc()).ok().ok_or("no memory")?;
    assert!(rt; make(&rt, &mut jails, "db.log", 0)? == Err(Errno::NoEnt));
    assert!(rt; make(&rt, &mut jails, "web", 2)? == Ok(Sid(1)));
    assert!(rt; make(&rt, &mut jails, "web", 2)? == Err(Errno::Exist));
    assert!(rt; make(&rt, &mut jails, "web.a", 1)? == Ok(Sid(2)));
    assert!(rt; make(&rt, &mut jails, "web.a.b", 9)? == Ok(Sid(3)));

    // The limit of `web` counts what lives below `web.a` too.
    assert!(rt; make(&rt, &mut jails, "web.c", 0)? == Err(Errno::Perm));
    assert!(rt; make(&rt, &mut jails, "web-x", 0)? == Ok(Sid(4)));
    assert!(rt; jails.in_order() == [Sid(0), Sid(1), Sid(4), Sid(2), Sid(3)].as_slice());
    let sids = jails.teardown(&path(&rt, "web")?).ok().ok_or("no memory")?;
    assert!(rt; sids.ok().ok_or("refused")?.as_slice() == [Sid(3), Sid(2), Sid(1)].as_slice());
    jails.law_of_tree();
    Ok(())
}

#[test]
fn a_jail_ends(rt: HostRuntime) -> Result<(), Fail> {
    let mut jails = Jails::new(rt.alloc()).ok().ok_or("no memory")?;
    assert!(rt; make(&rt, &mut jails, "web", 1)? == Ok(Sid(1)));
    assert!(rt; make(&rt, &mut jails, "web.a", 0)? == Ok(Sid(2)));
    assert!(rt; make(&rt, &mut jails, "web.b", 0)? == Err(Errno::Perm));
    let jail = path(&rt, "web.a")?;
    let sid = jails.alive(&jail).ok_or("not alive")?;
    assert!(rt; *jails.path(sid) == jail);
    remove(&rt, &mut jails, "web.a")?;
    assert!(rt; jails.alive(&jail).is_none());
    assert!(rt; jails.in_order() == [Sid(0), Sid(1)].as_slice());
    Ok(())
}
