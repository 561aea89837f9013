ghost use Rattle.std.specs.Prelude.{◌≡◌, ◌≢◌, Some};
ghost use Rattle.vn_types.specs.declared.half.Half.{Half as AnyHalf};
ghost use Rattle.vn_cells.specs.declared.world.Pair.{Pair as AnyPair};
ghost use Rattle.vn_cells.specs.declared.world.World.{World as AnyWorld};
ghost use Rattle.vn_cells.specs.world.Names.{Path as AnyPath, Key as AnyKey, key_of};
ghost use Rattle.vn_cells.specs.world.World.{pair_at};
ghost use Rattle.vn_cells.specs.commands.Pairs.{made_pair, destroyed_pair};
ghost use Rattle.vn_cells.specs.commands.Moves.{moved};
ghost use Rattle.vn_laws.specs.Units.{ChangesPair};

/// How far a pair reaches that is made, moves or is destroyed: nothing changes but that pair, and the
/// stacks where its halves stand or come to stand.
pub fn law_of_pairs()
    ensures made { (w : AnyWorld) (k : AnyKey) → ChangesPair k k.0 k.0 w (made_pair k w) }
    ensures moved { (w : AnyWorld) (h : AnyHalf) (from to : AnyPath)
        → ChangesPair (key_of h) from to w (moved h from to w) }
    ensures destroyed { (w : AnyWorld) (k : AnyKey) (pair : AnyPair) → pair_at w k ≡ Some pair
        → ChangesPair k pair.a.at pair.b.at w (destroyed_pair k w) }
{}
