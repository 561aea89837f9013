ghost use Rattle.std.specs.Prelude.{List, IsTrue};
ghost use Rattle.vn_cells.specs.declared.event.Event.{Event as AnyEvent};
ghost use Rattle.vn_cells.specs.declared.world.World.{World as AnyWorld};
ghost use Rattle.vn_cells.specs.machine.Events.{IsValid, IsValidEvent};
ghost use Rattle.vn_cells.specs.keeping.Sound.{IsSound};
ghost use Rattle.vn_cells.specs.machine.Step.{opening, step};
ghost use Rattle.vn_cells.specs.keeping.Clean.{IsEachPrefixClean};
ghost use Rattle.vn_cells.specs.keeping.Moved.{LeavesNothing};

/// Every prefix of every valid history is clean.
pub fn law_of_clean_histories()
    ensures { (events : List AnyEvent) → IsValid events → IsEachPrefixClean events }
{}

/// The opening world is sound, and each valid event keeps a sound world so and leaves nothing
/// behind.
pub fn law_of_sound_steps()
    ensures opening { IsSound opening }
    ensures step { (w : AnyWorld) (event : AnyEvent) → IsSound w → IsValidEvent event
        → IsSound (step w event) }
    ensures nothing { (w : AnyWorld) (event : AnyEvent) → IsSound w → IsValidEvent event
        → LeavesNothing w (step w event) }
{}
