ghost use Rattle.std.specs.Prelude.{◌≡◌, ◌≢◌, ℕ, false, None, Some, true, IsSome, IfOk, IfSome, OnErr, OnOk, length};
ghost use Rattle.vn_types.specs.declared.interface.IfOf.TheVariants.{Half};
ghost use Rattle.vn_types.specs.PerStack.{ChangesOnly};
ghost use Rattle.vn_types.specs.Refusals.{IsRefusedBy};
ghost use Rattle.vn_epair.specs.Pairs.{of as pair_of_number, pair_of};
ghost use Rattle.vn_ifnet.specs.Stacks.{is_taken, named, of as held_of};
ghost use Rattle.vn_vmove.specs.Moves.{half_refusal, homeward, lend_refusal, moved, moved_on, placed_at, reclaim_refusal, standing};
ghost use Rattle.vn_vmove.specs.Nets.{Becomes, net_of};
ghost use Rattle.vn_vmove.specs.Parts.{lives, pair_at};
ghost use Rattle.vn_vmove.specs.Places.{IsFree, KeepsNames, come, left};
ghost use Rattle.vn_vmove.specs.Sound.{IsSound, name_in, stands_at};

use crate::purging::purge;
use crate::tables::Tables;
use vn_epair::Pairs;
use vn_ifnet::IfTable;
use vn_types::{Errno, HalfId, If, IfName, NoMemory, Reply, Sid};

/// Moves the half of that name from the issuer's stack to a jail's (ifconfig(8), `vnet`); none for a jail
/// that does not live.
pub fn lend(tables: &mut Tables, from: Sid, name: IfName, to: Option<Sid>) -> Reply<()>
    requires sound { IsSound tables.old }
    requires living { IfSome to (λ sid. lives tables.old sid.0 ≡ true) }
    ensures answer { IfOk result (IsRefusedBy (lend_refusal tables.old from name to)) }
    ensures moved { IfOk result (λ answer. OnOk answer (Becomes
        (moved_on (standing tables.old name (Some from)) (Some from) to (net_of tables.old)) tables.old tables.new)) }
    ensures refused { IfOk result (λ answer. OnErr answer (Becomes (net_of tables.old) tables.old tables.new)) }
    ensures reserved { OnOk result (KeepsNames tables.old tables.new) }
    ensures sound { OnOk result (IsSound tables.new) }
{
    let half = match half_named(&tables.ifs, from, name) {
        Ok(half) => half,
        Err(errno) => return Ok(Err(errno)),
    };
    let Some(to) = to else {
        return Ok(Err(Errno::NxIo));
    };
    if tables.ifs.taken(to, name, None) {
        return Ok(Err(Errno::Exist));
    }
    transfer(tables, half, name, from, to)?;
    Ok(Ok(()))
}

/// Moves the half of that name from a jail's stack, none for a jail that does not live, to the issuer's, if
/// the half's home allows it (ifconfig(8), `-vnet`).
pub fn reclaim(
    tables: &mut Tables,
    to: Sid,
    from: Option<Sid>,
    name: IfName,
    home_allows: bool,
) -> Reply<()>
    requires sound { IsSound tables.old }
    requires living { lives tables.old to.0 ≡ true }
    ensures answer { IfOk result (IsRefusedBy (reclaim_refusal tables.old to from name home_allows)) }
    ensures moved { IfOk result (λ answer. OnOk answer (Becomes
        (moved_on (standing tables.old name from) from (Some to) (net_of tables.old)) tables.old tables.new)) }
    ensures refused { IfOk result (λ answer. OnErr answer (Becomes (net_of tables.old) tables.old tables.new)) }
    ensures reserved { OnOk result (KeepsNames tables.old tables.new) }
    ensures sound { OnOk result (IsSound tables.new) }
{
    let Some(from) = from else {
        return Ok(Err(Errno::NxIo));
    };
    let half = match half_named(&tables.ifs, from, name) {
        Ok(half) => half,
        Err(errno) => return Ok(Err(errno)),
    };
    if !home_allows {
        return Ok(Err(Errno::Perm));
    }
    if is_kept(&tables.ifs, half, name, from, to) {
        return Ok(Err(Errno::Exist));
    }
    transfer(tables, half, name, from, to)?;
    Ok(Ok(()))
}

/// Moves a half to its home.
pub fn send_home(tables: &mut Tables, half: HalfId) -> Result<(), NoMemory>
    requires sound { IsSound tables.old }
    requires exists { IsSome (pair_at tables.old half.pair) }
    ensures moved { OnOk result (Becomes
        (homeward half (pair_at tables.old half.pair) (net_of tables.old)) tables.old tables.new) }
    ensures reserved { OnOk result (KeepsNames tables.old tables.new) }
    ensures sound { OnOk result (IsSound tables.new) }
{
    let name = IfName::Epair {
        unit: tables.pairs.unit(half.pair),
        side: half.side,
    };
    let from = tables.pairs.stands(half);
    let home = tables.pairs.home(half.pair);
    transfer(tables, half, name, from, home)
}

/// The half that stands in a stack under a name.
fn half_named(ifs: &IfTable, sid: Sid, name: IfName) -> Result<HalfId, Errno>
    ensures found { IfOk result (λ half. named name (held_of ifs.now sid.0) ≡ Some (Half half)) }
    ensures refused { IsRefusedBy (half_refusal (named name (held_of ifs.now sid.0))) result }
{
    match ifs.find(sid, name) {
        None => Err(Errno::NxIo),
        Some(If::Lo0) => Err(Errno::Perm),
        Some(If::Half(half)) => Ok(half),
    }
}

/// Whether a name is kept from a half that comes from one stack to another.
fn is_kept(ifs: &IfTable, half: HalfId, name: IfName, from: Sid, to: Sid) -> bool
    ensures same { from.0 ≡ to.0 → result ≡ false }
    ensures other { from.0 ≢ to.0 → result ≡ is_taken name (Some half) (held_of ifs.now to.0) }
{
    from != to && ifs.taken(to, name, Some(half))
}

/// Moves a half from where it stands to a stack where its name is free.
fn transfer(
    tables: &mut Tables,
    half: HalfId,
    name: IfName,
    from: Sid,
    to: Sid,
) -> Result<(), NoMemory>
    requires sound { IsSound tables.old }
    requires stands { stands_at from.0 half.side (pair_at tables.old half.pair) ≡ true }
    requires living { lives tables.old to.0 ≡ true }
    requires named { name_in tables.old half ≡ name }
    requires free { IsFree tables.old half to.0 }
    ensures moved { OnOk result (Becomes (moved half from.0 to.0 (net_of tables.old)) tables.old tables.new) }
    ensures reserved { OnOk result (KeepsNames tables.old tables.new) }
    ensures sound { OnOk result (IsSound tables.new) }
{
    purge(tables, from, half);
    carry(&mut tables.ifs, half, name, from, to)?;
    put_down(&mut tables.pairs, half, to);
    Ok(())
}

/// Takes a half out of a stack, and attaches it to one behind all others.
fn carry(ifs: &mut IfTable, half: HalfId, name: IfName, from: Sid, to: Sid) -> Result<(), NoMemory>
    requires { named name (record (held_of ifs.old to.0) {
      attached = left half from.0 to.0 (held_of ifs.old to.0).attached;
    }) ≡ None }
    ensures attached { OnOk result ((q : ℕ) → (held_of ifs.new q).attached
        ≡ come half name to.0 q (left half from.0 q (held_of ifs.old q).attached)) }
    ensures reserved { OnOk result ((q : ℕ) → (held_of ifs.new q).reserved ≡ (held_of ifs.old q).reserved) }
{
    ifs.detach(from, If::Half(half));
    ifs.attach(to, If::Half(half), name)
}

/// Puts a half into a stack, down, and drops all frames of its pair.
fn put_down(pairs: &mut Pairs, half: HalfId, to: Sid)
    requires { IsSome (pair_of_number pairs.old half.pair) }
    ensures placed { pair_of_number pairs.new half.pair
        ≡ Some (placed_at half.side to.0 (pair_of pairs.old half.pair)) }
    ensures others { ChangesOnly half.pair (pair_of_number pairs.old) (pair_of_number pairs.new) }
    ensures numbers { length pairs.new ≡ length pairs.old }
{
    pairs.clear(half.pair);
    pairs.set_stands(half, to);
    pairs.set_up(half, false);
}
