ghost use Rattle.std.specs.Prelude.{◌≡◌, ℕ, IsSome};
ghost use Rattle.vn_types.specs.declared.interface.IfName.{IfName as Spelt};
ghost use Rattle.vn_epair.specs.Pairs.{half_of, of as pair_of_number, pair_of};
ghost use Rattle.vn_ifnet.specs.Stacks.{of as held_of, reserved_by};
ghost use Rattle.vn_vmove.specs.Moves.{unmade};
ghost use Rattle.vn_vmove.specs.Nets.{Becomes, net_of};
ghost use Rattle.vn_vmove.specs.Parts.{pair_at};
ghost use Rattle.vn_vmove.specs.Places.{LetsGo, left, let_go};
ghost use Rattle.vn_vmove.specs.Sound.{IsSound, half_name};

use crate::purging::purge;
use crate::tables::Tables;
use vn_epair::Pairs;
use vn_ifnet::IfTable;
use vn_types::{HalfId, If, IfName, Side};

/// Destroys a pair (ifconfig(8), `destroy`): both halves leave the stacks where they stand, side a first.
pub fn destroy_pair(tables: &mut Tables, pair: u32)
    requires sound { IsSound tables.old }
    requires exists { IsSome (pair_at tables.old pair) }
    ensures destroyed { Becomes (unmade pair (pair_at tables.old pair) (net_of tables.old)) tables.old tables.new }
    ensures reserved { LetsGo (pair_at tables.old pair) tables.old tables.new }
    ensures sound { IsSound tables.new }
{
    let a = HalfId {
        pair,
        side: Side::A,
    };
    let b = HalfId {
        pair,
        side: Side::B,
    };
    // Both are purged before either leaves: a purge needs each half where it stands.
    let at = tables.pairs.stands(a);
    purge(tables, at, a);
    let at = tables.pairs.stands(b);
    purge(tables, at, b);
    leave(&mut tables.ifs, &tables.pairs, a);
    leave(&mut tables.ifs, &tables.pairs, b);
    tables.pairs.destroy(pair);
}

/// A half leaves the stack where it stands, and its name at home is free.
fn leave(ifs: &mut IfTable, pairs: &Pairs, half: HalfId)
    requires { IsSome (pair_of_number pairs.now half.pair) }
    ensures attached { (q : ℕ) → (held_of ifs.new q).attached
        ≡ left half (half_of pairs.now half).at q (held_of ifs.old q).attached }
    ensures reserved { (q : ℕ) (name : Spelt) → reserved_by name (held_of ifs.new q)
        ≡ let_go (half_name (pair_of_number pairs.now half.pair) half.side) (pair_of pairs.now half.pair).home q name
        (reserved_by name (held_of ifs.old q)) }
{
    ifs.detach(pairs.stands(half), If::Half(half));
    let name = IfName::Epair {
        unit: pairs.unit(half.pair),
        side: half.side,
    };
    ifs.release_name(pairs.home(half.pair), name);
}
