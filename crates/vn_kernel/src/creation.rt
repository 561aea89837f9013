ghost use Rattle.std.specs.Prelude.{◌≡◌, false, IfOk};
ghost use Rattle.vn_types.specs.Paths.{is_host};
ghost use Rattle.vn_cells.specs.commands.Jails.{creation};
ghost use Rattle.vn_cells.specs.world.World.{common_of};
ghost use Rattle.vn_kernel.specs.Fields.{fields};
ghost use Rattle.vn_kernel.specs.Stands.{AnsweredBy, HasRoom, Stands};

use crate::construction::construct;
use crate::state::State;
use vn_cells::Outcome;
use vn_types::{NoMemory, Path};

/// Makes a jail, unless that is refused (jail(8), `-c`).
pub(crate) fn make_jail(state: &mut State, jail: Path, limit: u32) -> Result<Outcome, NoMemory>
    requires stands { Stands (fields state.old) }
    requires room { HasRoom (fields state.old) }
    requires label { is_host jail ≡ false }
    ensures { IfOk result (λ outcome. AnsweredBy (λ w. creation (common_of w) jail limit w) outcome
        (fields state.old) (fields state.new)) }
{
    let answer = state.jails.create(&jail, limit)?;
    let sid = match answer {
        Ok(sid) => sid,
        Err(errno) => return Ok(Outcome::Refused(errno)),
    };
    state.jails.law_of_tree();
    construct(state, jail, sid)?;
    Ok(Outcome::Done)
}
