ghost use Rattle.std.specs.Prelude.{◌≡◌, ◌<◌, ◌≤◌, ◌^◌, ◌||◌, ℕ, None, true, length, IfOk, OnOk, OnErr};
ghost use Rattle.std.specs.Option.{is_some};
ghost use Rattle.vn_types.specs.declared.interface.IfName.{IfName as Spelt};
ghost use Rattle.vn_types.specs.declared.interface.IfName.TheVariants.{Epair as Named};
ghost use Rattle.vn_types.specs.declared.interface.Side.TheVariants.{A, B};
ghost use Rattle.vn_types.specs.Refusals.{IsRefusedBy};
ghost use Rattle.vn_ifnet.specs.Stacks.{named, of as held_of, reserved_by};
ghost use Rattle.vn_vmove.specs.Parts.{lives};
ghost use Rattle.vn_vmove.specs.Places.{come};
ghost use Rattle.vn_vmove.specs.Sound.{IsSound};
ghost use Rattle.vn_kernel.specs.Makings.{keep_for, making_refusal, Makes};

use vn_epair::UNIT_MAX;
use vn_ifnet::IfTable;
use vn_types::{Errno, HalfId, If, IfName, NoMemory, Reply, Sid, Side};
use vn_vmove::Tables;

/// Makes a stack's pair of a unit, and answers its number (ifconfig(8), `create`): both halves are attached
/// there, side a first, and their names are reserved.
pub(crate) fn make_pair(tables: &mut Tables, home: Sid, unit: u32) -> Reply<u32>
    requires sound { IsSound tables.old }
    requires living { lives tables.old home.0 ≡ true }
    requires few { length tables.old.pairs < 2 ^ 32 }
    ensures answer { IfOk result (IsRefusedBy (making_refusal tables.old home.0 unit)) }
    ensures made { IfOk result (λ answer. IfOk answer (λ n. Makes home.0 unit n tables.old tables.new)) }
    ensures refused { IfOk result (λ answer. OnErr answer (tables.new ≡ tables.old)) }
{
    if unit > UNIT_MAX {
        return Ok(Err(Errno::Inval));
    }
    if is_taken(&tables.ifs, home, unit) {
        return Ok(Err(Errno::Exist));
    }
    let number = match tables.pairs.create(home, unit)? {
        Ok(number) => number,
        Err(errno) => return Ok(Err(errno)),
    };
    let a = HalfId {
        pair: number,
        side: Side::A,
    };
    let b = HalfId {
        pair: number,
        side: Side::B,
    };
    bring(&mut tables.ifs, home, a, unit)?;
    bring(&mut tables.ifs, home, b, unit)?;
    Ok(Ok(number))
}

/// Whether one of the names of a unit stands in a stack.
fn is_taken(ifs: &IfTable, sid: Sid, unit: u32) -> bool
    ensures { result ≡ (is_some (named (Named unit A) (held_of ifs.now sid.0))
        || is_some (named (Named unit B) (held_of ifs.now sid.0))) }
{
    let a = IfName::Epair {
        unit,
        side: Side::A,
    };
    let b = IfName::Epair {
        unit,
        side: Side::B,
    };
    ifs.find(sid, a).is_some() || ifs.find(sid, b).is_some()
}

/// Attaches a half of a unit at home, behind all others, and reserves its name there.
fn bring(ifs: &mut IfTable, home: Sid, half: HalfId, unit: u32) -> Result<(), NoMemory>
    requires { named (Named unit half.side) (held_of ifs.old home.0) ≡ None }
    ensures attached { OnOk result ((q : ℕ) → (held_of ifs.new q).attached
        ≡ come half (Named unit half.side) home.0 q (held_of ifs.old q).attached) }
    ensures reserved { OnOk result ((q : ℕ) (name : Spelt) → reserved_by name (held_of ifs.new q)
        ≡ keep_for half (Named unit half.side) home.0 q name (reserved_by name (held_of ifs.old q))) }
{
    let name = IfName::Epair {
        unit,
        side: half.side,
    };
    ifs.attach(home, If::Half(half), name)?;
    ifs.reserve_name(home, name, half)
}
