ghost use Rattle.std.specs.Prelude.{◌≡◌, IfOk, option_map};
ghost use Rattle.vn_types.specs.Interfaces.{as_if};
ghost use Rattle.vn_jail.specs.Tree.{path_at};
ghost use Rattle.vn_vmove.specs.Moves.{may_have as may_have_half, standing};
ghost use Rattle.vn_cells.specs.commands.Moves.{lending, reclaiming};
ghost use Rattle.vn_cells.specs.commands.Taken.{may_have};
ghost use Rattle.vn_kernel.specs.Fields.{fields};
ghost use Rattle.vn_kernel.specs.Naming.{name_of};
ghost use Rattle.vn_kernel.specs.Stands.{AnsweredBy, HasStack};

use crate::state::State;
use vn_cells::Outcome;
use vn_types::{If, IfName, NoMemory, Path, Sid};
use vn_vmove::{lend, reclaim};

/// Lends the half of that name to a jail (ifconfig(8), `vnet`).
pub(crate) fn lend_half(
    state: &mut State,
    from: Sid,
    name: IfName,
    to: &Path,
) -> Result<Outcome, NoMemory>
    requires { HasStack from.0 (fields state.old) }
    ensures { IfOk result (λ outcome. AnsweredBy (lending (path_at state.old.jails from.0) name to.now) outcome
        (fields state.old) (fields state.new)) }
{
    let target = state.jails.alive(to);
    match lend(&mut state.tables, from, name, target)? {
        Ok(()) => Ok(Outcome::Done),
        Err(errno) => Ok(Outcome::Refused(errno)),
    }
}

/// Takes the half of that name back from a jail (ifconfig(8), `-vnet`).
pub(crate) fn reclaim_half(
    state: &mut State,
    to: Sid,
    name: IfName,
    from: &Path,
) -> Result<Outcome, NoMemory>
    requires { HasStack to.0 (fields state.old) }
    ensures { IfOk result (λ outcome. AnsweredBy (reclaiming (path_at state.old.jails to.0) name from.now) outcome
        (fields state.old) (fields state.new)) }
{
    let source = state.jails.alive(from);
    let allows = home_allows(state, to, name, source);
    match reclaim(&mut state.tables, to, source, name, allows)? {
        Ok(()) => Ok(Outcome::Done),
        Err(errno) => Ok(Outcome::Refused(errno)),
    }
}

/// Whether the half of that name in a stack, none for a jail that does not live, may be had in another: its
/// home is there or above.
fn home_allows(state: &State, to: Sid, name: IfName, source: Option<Sid>) -> bool
    requires { HasStack to.0 (fields state.now) }
    ensures { may_have_half result (standing state.now.tables name source)
        ≡ may_have (path_at state.now.jails to.0) (option_map (as_if (name_of (fields state.now))) (standing state.now.tables name source)) }
{
    let Some(sid) = source else {
        return false;
    };
    match state.tables.ifs.find(sid, name) {
        None => false,
        Some(If::Lo0) => false,
        Some(If::Half(half)) => {
            let home = state.tables.pairs.home(half.pair);
            state.jails.path(to).is_under(state.jails.path(home))
        }
    }
}
