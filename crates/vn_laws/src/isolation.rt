ghost use Rattle.std.specs.Prelude.{◌≡◌, true, List, IsTrue};
ghost use Rattle.std.specs.List.{list_all};
ghost use Rattle.vn_cells.specs.declared.cell.Cells.{Cells as CellSet};
ghost use Rattle.vn_cells.specs.declared.event.Event.{Event as AnyEvent};
ghost use Rattle.vn_cells.specs.declared.world.World.{World as AnyWorld};
ghost use Rattle.vn_cells.specs.world.Names.{Path as AnyPath};
ghost use Rattle.vn_cells.specs.machine.Events.{IsValid};
ghost use Rattle.vn_cells.specs.machine.Local.{LocalRule, act_by};
ghost use Rattle.vn_cells.specs.sets.Sets.{in_stacks};
ghost use Rattle.vn_cells.specs.sets.Changed.{project};
ghost use Rattle.vn_cells.specs.sets.Isolation.{IsIsolated};
ghost use Rattle.vn_laws.specs.Locality.{writes_in};
ghost use Rattle.vn_laws.specs.Relations.{Alike, Belongs};

/// Isolation: in every valid history, each cell of each closed set is as in a run of the set's own
/// events alone.
pub fn law_of_isolation()
    ensures { (events : List AnyEvent) → IsValid events → IsIsolated events }
{}

/// Whatever rule acts in one stack: at a path of a set whose halves belong to it, it keeps two
/// worlds alike in the set, and what belongs to the set still does.
pub fn law_of_local_rules()
    ensures alike { (rule : LocalRule) (set : CellSet) (v w : AnyWorld)
        → Alike set v w → Belongs set v → (p : AnyPath) (event : AnyEvent)
        → IsTrue (in_stacks set p) → Alike set (act_by rule v p event) (act_by rule w p event) }
    ensures belongs { (rule : LocalRule) (set : CellSet) (w : AnyWorld) → Belongs set w
        → (p : AnyPath) (event : AnyEvent) → Belongs set (act_by rule w p event) }
{}

/// The projection onto a set that has the path of each event is the history itself, where each is a
/// command.
pub fn law_of_whole_projection()
    ensures { (set : CellSet) (events : List AnyEvent)
        → IsTrue (list_all (writes_in set) events) → project set events ≡ events }
{}
