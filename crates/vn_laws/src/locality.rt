ghost use Rattle.std.specs.Prelude.{◌≡◌, ◌++◌, ℕ, Some, None, false};
ghost use Rattle.vn_types.specs.declared.errno.Errno.{Errno as AnyErrno};
ghost use Rattle.vn_types.specs.declared.errno.Errno.TheVariants as errno;
ghost use Rattle.vn_types.specs.declared.half.Half.{Half as AnyHalf};
ghost use Rattle.vn_rules.specs.Scenes.{SceneOf};
ghost use Rattle.vn_cells.specs.declared.command.Command.{Command as AnyCommand};
ghost use Rattle.vn_cells.specs.declared.command.Command.TheVariants as command;
ghost use Rattle.vn_cells.specs.declared.world.Live.{Live as AnyLive};
ghost use Rattle.vn_cells.specs.declared.world.World.{World as AnyWorld};
ghost use Rattle.vn_cells.specs.world.Names.{Path as AnyPath};
ghost use Rattle.vn_cells.specs.world.World.{stack_at, is_alive, live_map};
ghost use Rattle.vn_cells.specs.machine.Reach.{Near, reach};
ghost use Rattle.vn_cells.specs.machine.Local.{placed, halves_at, live_after};
ghost use Rattle.vn_cells.specs.machine.Step.{far_refusal_at};
ghost use Rattle.vn_laws.specs.Locality.{ChangesNear, AnswersNear, AddsRefusal, AnswersCreation};

/// How far an event reaches: what acts in one stack changes that stack and the ends of the halves
/// there; a command that reaches further and is refused (as each on a path that is not alive) its
/// path's transcript alone, where one near its stack leaves what its rule says; and a creation the
/// new jail, its ancestors other than host and the issuer's transcript.
pub fn law_of_locality()
    ensures placed { (p : AnyPath) (scene : SceneOf AnyHalf) (w : AnyWorld)
        → ChangesNear p (live_map (live_after scene)) scene w (placed p (halves_at w p) scene w) }
    ensures near { (w : AnyWorld) (lane : ℕ) (p : AnyPath) (command : AnyCommand) (live : AnyLive)
        → reach p command ≡ Near → (stack_at w p).live ≡ Some live
        → AnswersNear w lane p command live }
    ensures dead { (w : AnyWorld) (lane : ℕ) (p : AnyPath) (command : AnyCommand)
        → is_alive w p ≡ false → AddsRefusal w lane p command errno.NoEnt }
    ensures refused { (w : AnyWorld) (lane : ℕ) (p : AnyPath) (command : AnyCommand)
        (code : AnyErrno) → far_refusal_at w p command ≡ Some code → AddsRefusal w lane p command code }
    ensures creation { (w : AnyWorld) (lane : ℕ) (issuer path : AnyPath) (limit : ℕ)
        → far_refusal_at w issuer (command.JailCreate path limit) ≡ None
        → AnswersCreation w lane issuer path limit }
{}
