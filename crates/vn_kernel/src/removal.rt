ghost use Rattle.std.specs.Prelude.{◌≡◌, ◌≢◌, ◌<◌, true, false, IfOk, OnOk, length};
ghost use Rattle.vn_types.specs.Paths.{Path as Labels, is_host, parent};
ghost use Rattle.vn_rules.specs.Rules.{answer};
ghost use Rattle.vn_jail.specs.Tree.{is_alive, path_at};
ghost use Rattle.vn_cells.specs.commands.Removal.{removal};
ghost use Rattle.vn_cells.specs.world.World.{common_of};
ghost use Rattle.vn_kernel.specs.Fields.{fields};
ghost use Rattle.vn_kernel.specs.Removal.{EndsHomed, EndsStack, homed_numbers, return_entry};
ghost use Rattle.vn_kernel.specs.Stands.{Answered, HasStack, Stands};
ghost use Rattle.vn_kernel.specs.Worlds.{with_entry, world_of};

use crate::burial::{bury, note_destructor};
use crate::ending::end_pair;
use crate::homecoming::send_lent_home;
use crate::state::State;
use vn_cells::Outcome;
use vn_types::{NoMemory, Path, Sid};

/// Destroys a jail and its living descendants (jail(8), `-r`).
pub(crate) fn remove_jail(state: &mut State, jail: &Path) -> Result<Outcome, NoMemory>
    requires stands { Stands (fields state.old) }
    requires label { is_host jail.now ≡ false }
    ensures { IfOk result (λ outcome. let w = world_of (fields state.old) in
        Answered (answer w (removal (common_of w) jail.now w)) outcome (fields state.old) (fields state.new)) }
{
    let sids = match state.jails.teardown(jail)? {
        Ok(sids) => sids,
        Err(errno) => return Ok(Outcome::Refused(errno)),
    };
    for sid in &sids {
        end_stack(state, *sid)?;
    }
    Ok(Outcome::Done)
}

/// Destroys a living stack under which none lives (VNET(9)): its destructors run from the last to the first,
/// each with its entry.
fn end_stack(state: &mut State, sid: Sid) -> Result<(), NoMemory>
    requires stack { HasStack sid.0 (fields state.old) }
    requires jail { sid.0 ≢ 0 }
    requires childless { (p : Labels) → is_alive p state.old.jails ≡ true
        → parent p ≢ path_at state.old.jails sid.0 }
    ensures { OnOk result (EndsStack sid.0 (fields state.old) (fields state.new)) }
{
    send_lent_home(state, sid)?;
    note_return(state, sid)?;
    end_homed(state, sid)?;
    bury(state, sid)
}

/// Adds the entry of the first destructor, `vnet_if_return`, to the transcript of a stack.
fn note_return(state: &mut State, sid: Sid) -> Result<(), NoMemory>
    requires { sid.0 < length state.old.jails }
    ensures { OnOk result (fields state.new
        ≡ with_entry (path_at state.old.jails sid.0) (return_entry state.old.clock) (fields state.old)) }
{
    let path = state.jails.path(sid).copy()?;
    note_destructor(state, &path, 0)
}

/// Destroys the pairs that are homed in a stack, lowest unit first (VNET(9), what `vnet_cloner` does as a
/// jail goes).
pub(crate) fn end_homed(state: &mut State, sid: Sid) -> Result<(), NoMemory>
    requires { HasStack sid.0 (fields state.old) }
    ensures { OnOk result (EndsHomed sid.0 (fields state.old) (fields state.new)) }
{
    let pairs = homed_pairs(state, sid)?;
    for pair in &pairs {
        end_pair(state, *pair)?;
    }
    Ok(())
}

/// The pairs that are homed in a stack, lowest unit first.
fn homed_pairs(state: &State, sid: Sid) -> Result<Vec<u32>, NoMemory>
    requires stands { Stands (fields state.now) }
    requires number { sid.0 < length state.now.jails }
    ensures { IfOk result (λ pairs. pairs.items
        ≡ homed_numbers (path_at state.now.jails sid.0) state.now.units.entries) }
{
    let first = (state.jails.path(sid).copy()?, 0);
    let last = (state.jails.path(sid).copy()?, u32::MAX);
    let mut pairs = Vec::new(state.alloc);
    for (_, pair) in state.units.range(&first..=&last) {
        pairs.push(*pair)?;
    }
    Ok(pairs)
}
