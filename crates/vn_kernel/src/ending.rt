ghost use Rattle.std.specs.Prelude.{IfOk, IsSome, OnOk};
ghost use Rattle.vn_jail.specs.Tree.{path_at};
ghost use Rattle.vn_vmove.specs.Parts.{pair_at};
ghost use Rattle.vn_cells.specs.commands.Pairs.{destruction};
ghost use Rattle.vn_kernel.specs.Fields.{fields};
ghost use Rattle.vn_kernel.specs.Removal.{EndsPair};
ghost use Rattle.vn_kernel.specs.Stands.{AnsweredBy, HasStack, Stands};

use crate::state::State;
use vn_cells::Outcome;
use vn_types::{Errno, If, IfName, NoMemory, Sid};
use vn_vmove::destroy_pair;

/// Destroys the pair of the half of that name (ifconfig(8), `destroy`).
pub(crate) fn destroy_half(state: &mut State, sid: Sid, name: IfName) -> Result<Outcome, NoMemory>
    requires { HasStack sid.0 (fields state.old) }
    ensures { IfOk result (λ outcome. AnsweredBy (destruction (path_at state.old.jails sid.0) name) outcome
        (fields state.old) (fields state.new)) }
{
    match state.tables.ifs.find(sid, name) {
        None => Ok(Outcome::Refused(Errno::NxIo)),
        Some(If::Lo0) => Ok(Outcome::Refused(Errno::Inval)),
        Some(If::Half(half)) => {
            end_pair(state, half.pair)?;
            Ok(Outcome::Done)
        }
    }
}

/// Destroys a pair, whose home and unit have no number then.
pub(crate) fn end_pair(state: &mut State, pair: u32) -> Result<(), NoMemory>
    requires stands { Stands (fields state.old) }
    requires exists { IsSome (pair_at state.old.tables pair) }
    ensures { OnOk result (EndsPair pair (fields state.old) (fields state.new)) }
{
    let home = state.tables.pairs.home(pair);
    let home = state.jails.path(home).copy()?;
    let unit = state.tables.pairs.unit(pair);
    destroy_pair(&mut state.tables, pair);
    state.units.remove(&(home, unit));
    Ok(())
}
