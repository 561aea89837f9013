ghost use Rattle.std.specs.Prelude.{◌≡◌, ◌≢◌, ◌<◌, true, drop, get_or, length, reverse, OnOk};
ghost use Rattle.vn_types.specs.Paths.{Path as Labels, parent};
ghost use Rattle.vn_jail.specs.Tree.{is_alive, path_at};
ghost use Rattle.vn_kernel.specs.Constructors.{constructors};
ghost use Rattle.vn_kernel.specs.Destruction.{uninit_entry, with_destructors};
ghost use Rattle.vn_kernel.specs.Fields.{fields};
ghost use Rattle.vn_kernel.specs.Removal.{Buries, IsAlone};
ghost use Rattle.vn_kernel.specs.Stands.{HasStack};
ghost use Rattle.vn_kernel.specs.Worlds.{with_entry};
ghost use Rattle.vn_kernel.specs.declared.constructors.Constructor.TheVariants.{VnetData};

use crate::destruction::destruct;
use crate::state::State;
use vn_cells::{Entry, What};
use vn_types::{NoMemory, Path, Sid};

/// Destroys a living stack in which nothing but lo0 stands and that is the home of no pair: what is left for
/// its destructors, each with its entry, and the jail lives no more.
pub(crate) fn bury(state: &mut State, sid: Sid) -> Result<(), NoMemory>
    requires stack { HasStack sid.0 (fields state.old) }
    requires jail { sid.0 ≢ 0 }
    requires childless { (p : Labels) → is_alive p state.old.jails ≡ true
        → parent p ≢ path_at state.old.jails sid.0 }
    requires alone { IsAlone sid.0 state.old.tables }
    ensures { OnOk result (Buries sid.0 (fields state.old) (fields state.new)) }
{
    let path = state.jails.path(sid).copy()?;
    note_destruction(state, &path)?;
    destruct(&mut state.tables, sid);
    state.jails.remove(sid);
    state.jails.law_of_tree();
    Ok(())
}

/// Adds the entries of the destructors behind the first, which is that of `vnet_if_return`, in the order in
/// which they run (VNET(9)).
fn note_destruction(state: &mut State, path: &Path) -> Result<(), NoMemory>
    ensures { OnOk result (fields state.new
        ≡ with_destructors path.now state.old.clock (drop 1 (reverse constructors)) (fields state.old)) }
{
    for place in 1..state.constructors.down().len() {
        note_destructor(state, path, place)?;
    }
    Ok(())
}

/// Adds the entry of the destructor at a place of their order.
pub(crate) fn note_destructor(state: &mut State, path: &Path, place: usize) -> Result<(), NoMemory>
    requires { place < length constructors }
    ensures { OnOk result (fields state.new ≡ with_entry path.now
        (uninit_entry state.old.clock (get_or (reverse constructors) place VnetData)) (fields state.old)) }
{
    let destructor = state.constructors.down()[place];
    let clock = state.clock;
    let what = What::Uninit(destructor.name());
    state.note(path, Entry { clock, what })
}
