ghost use Rattle.std.specs.Prelude.{IfOk};
ghost use Rattle.vn_cells.specs.declared.command.Command.TheVariants.{Down, Up};
ghost use Rattle.vn_jail.specs.Tree.{path_at};
ghost use Rattle.vn_kernel.specs.Fields.{fields};
ghost use Rattle.vn_kernel.specs.Stands.{HasRoom, HasStack, Ran};

use crate::state::State;
use vn_cells::Outcome;
use vn_ipcore::{come_up, go_down};
use vn_types::{Errno, If, IfName, NoMemory, Sid};

/// Sets the interface of that name in a living stack up (ifconfig(8), `up`). A half that was down announces
/// its addresses; lo0 is always up.
pub(crate) fn set_up(state: &mut State, sid: Sid, name: IfName) -> Result<Outcome, NoMemory>
    requires stack { HasStack sid.0 (fields state.old) }
    requires room { HasRoom (fields state.old) }
    ensures { IfOk result (λ outcome.
        Ran (path_at state.old.jails sid.0) (Up name) outcome (fields state.old) (fields state.new)) }
{
    match state.tables.ifs.find(sid, name) {
        None => Ok(Outcome::Refused(Errno::NxIo)),
        Some(If::Lo0) => Ok(Outcome::Done),
        Some(If::Half(half)) => {
            come_up(state.alloc, &mut state.tables, sid, half)?;
            Ok(Outcome::Done)
        }
    }
}

/// Sets the half of that name in a living stack down (ifconfig(8), `down`). Takes no memory.
pub(crate) fn set_down(state: &mut State, sid: Sid, name: IfName) -> Outcome
    requires { HasStack sid.0 (fields state.old) }
    ensures { Ran (path_at state.old.jails sid.0) (Down name) result (fields state.old) (fields state.new) }
{
    match state.tables.ifs.find(sid, name) {
        None => Outcome::Refused(Errno::NxIo),
        Some(If::Lo0) => Outcome::Refused(Errno::Inval),
        Some(If::Half(half)) => {
            go_down(&mut state.tables, sid, half);
            Outcome::Done
        }
    }
}
