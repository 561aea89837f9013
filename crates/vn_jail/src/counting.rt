ghost use Rattle.std.specs.Prelude.{◌≡◌, ◌+◌, ◌-◌, ◌<◌, map, false, length};
ghost use Rattle.vn_types.specs.Paths.{above, from};
ghost use Rattle.vn_jail.specs.declared.jail.Living.TheVariants.{More};
ghost use Rattle.vn_jail.specs.Tree.{any_full, changed, counted, path_at, recount, start, stop};
ghost use Rattle.vn_jail.specs.Kept.{IsLinked};

use crate::jail::{Jail, Living};

/// Whether a jail other than host, or one above it, has as many living descendants as its limit.
pub(crate) fn is_any_full(jails: &[Jail], number: u32) -> bool
    requires linked { IsLinked jails.now }
    requires number { number < length jails.now }
    ensures { result ≡ any_full jails.now (from (path_at jails.now number)) }
{
    if number == 0 {
        return false;
    }
    let jail = &jails[number as usize];
    if jail.is_full() {
        return true;
    }
    is_any_full(jails, jail.parent)
}

/// Counts one living descendant more or less in a jail other than host, and in those above it.
fn count(jails: &mut [Jail], number: u32, living: Living)
    requires linked { IsLinked jails.old }
    requires number { number < length jails.old }
    requires room { living ≡ More → any_full jails.old (from (path_at jails.old number)) ≡ false }
    ensures { jails.new ≡ map (recount (counted living) (from (path_at jails.old number))) jails.old }
{
    if number == 0 {
        return;
    }
    let parent = jails[number as usize].parent;
    count(jails, parent, living);
    let jail = &mut jails[number as usize];
    jail.count_one(living);
}

/// Counts one living descendant more or less in the jails above one, other than host.
fn count_above(jails: &mut [Jail], number: u32, living: Living)
    requires linked { IsLinked jails.old }
    requires number { number < length jails.old }
    requires jail { 0 < number }
    requires room { living ≡ More → any_full jails.old (above (path_at jails.old number)) ≡ false }
    ensures { jails.new ≡ map (recount (counted living) (above (path_at jails.old number))) jails.old }
{
    let up = jails[number as usize].parent;
    count(jails, up, living);
}

/// Lets a jail live, and counts it in the jails above it.
pub(crate) fn begin(jails: &mut [Jail], number: u32, limit: u32)
    requires linked { IsLinked jails.old }
    requires number { number < length jails.old }
    requires jail { 0 < number }
    requires room { any_full jails.old (above (path_at jails.old number)) ≡ false }
    ensures { jails.new ≡ changed (start limit) (λ n. n + 1) (path_at jails.old number) jails.old }
{
    count_above(jails, number, Living::More);
    jails[number as usize].start(limit);
}

/// Ends a jail, and counts one less in the jails above it.
pub(crate) fn end(jails: &mut [Jail], number: u32)
    requires linked { IsLinked jails.old }
    requires number { number < length jails.old }
    requires jail { 0 < number }
    ensures { jails.new ≡ changed stop (λ n. n - 1) (path_at jails.old number) jails.old }
{
    count_above(jails, number, Living::Less);
    jails[number as usize].stop();
}
