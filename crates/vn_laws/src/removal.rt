ghost use Rattle.std.specs.Prelude.{◌≡◌, ◌&&◌, not, ℕ, Some, true, false};
ghost use Rattle.vn_cells.specs.declared.world.Pair.{Pair as AnyPair};
ghost use Rattle.vn_cells.specs.declared.world.World.{World as AnyWorld};
ghost use Rattle.vn_cells.specs.world.Names.{Path as AnyPath, Key as AnyKey, is_host, is_under, is_below};
ghost use Rattle.vn_cells.specs.world.World.{stack_at, pair_at, is_alive};
ghost use Rattle.vn_cells.specs.commands.Removal.{removed};
ghost use Rattle.vn_cells.specs.commands.Taken.{lowest_free};
ghost use Rattle.vn_cells.specs.keeping.Sound.{IsSound};
ghost use Rattle.vn_laws.specs.Removals.{DestroysAtHome};
ghost use Rattle.vn_laws.specs.Units.{IsLowestFree};

/// A removal leaves alive who lived and was not under the path, and changes no stack that is neither
/// under it nor above it. Where nothing lives below a path, as when a stack is destroyed, both halves
/// of each pair that is homed there stand there; and so they do in each stack of a removal when its
/// pairs are destroyed.
pub fn law_of_removal()
    ensures lives { (w : AnyWorld) → IsSound w → (clock : ℕ) (p q : AnyPath) → is_host p ≡ false
        → is_alive (removed clock p w) q ≡ (is_alive w q && not (is_under q p)) }
    ensures homed { (w : AnyWorld) → IsSound w → (p : AnyPath)
        → ((q : AnyPath) → is_alive w q ≡ true → is_below q p ≡ false) → (k : AnyKey) (pair : AnyPair)
        → k.0 ≡ p → pair_at w k ≡ Some pair → (pair.a.at ≡ p) × (pair.b.at ≡ p) }
    ensures reach { (w : AnyWorld) → IsSound w → (clock : ℕ) (p q : AnyPath) → is_host p ≡ false
        → is_under q p ≡ false → is_under p q ≡ false
        → stack_at (removed clock p w) q ≡ stack_at w q }
    ensures destroyed { (w : AnyWorld) → IsSound w → (clock : ℕ) (p : AnyPath) → is_host p ≡ false
        → DestroysAtHome clock p w }
{}

/// The unit of a pair that is made without one is free, and none below it is; and where there is
/// none, no unit that a pair can be made with is free.
pub fn law_of_lowest_unit()
    ensures { (w : AnyWorld) (p : AnyPath) → IsLowestFree w p (lowest_free w p) }
{}
