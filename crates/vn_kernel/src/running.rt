ghost use Rattle.std.specs.Prelude.{◌≡◌, IfOk, IsTrue, true};
ghost use Rattle.vn_cells.specs.machine.Events.{is_built_command, is_valid_command};
ghost use Rattle.vn_jail.specs.Tree.{path_at};
ghost use Rattle.vn_kernel.specs.Fields.{fields};
ghost use Rattle.vn_kernel.specs.Stands.{HasRoom, HasStack, Ran};

use crate::creation::make_jail;
use crate::ending::destroy_half;
use crate::links::{set_down, set_up};
use crate::moves::{lend_half, reclaim_half};
use crate::pairs::{make_pair, set_mac};
use crate::removal::remove_jail;
use crate::state::State;
use vn_cells::{Command, Outcome};
use vn_types::{NoMemory, Path, Sid, join};

/// What a command does in the living stack of its issuer, if it is not refused, and what it is answered.
#[tactic(auto, using(crate::proofs::Arms::joins, crate::proofs::Arms::names_jail))]
pub(crate) fn run_living(
    state: &mut State,
    sid: Sid,
    issuer: &Path,
    command: &Command,
) -> Result<Outcome, NoMemory>
    requires stack { HasStack sid.0 (fields state.old) }
    requires own { path_at state.old.jails sid.0 ≡ issuer.now }
    requires room { HasRoom (fields state.old) }
    requires valid { IsTrue (is_valid_command issuer.now command.now) }
    requires built { is_built_command command.now ≡ true }
    ensures { IfOk result (λ outcome.
        Ran issuer.now command.now outcome (fields state.old) (fields state.new)) }
{
    match command {
        Command::JailCreate { path, children_max } => {
            let jail = join(state.alloc, issuer, path)?;
            make_jail(state, jail, *children_max)
        }
        Command::JailRemove { path } => {
            let jail = join(state.alloc, issuer, path)?;
            remove_jail(state, &jail)
        }
        Command::EpairAny => make_pair(state, sid, None),
        Command::EpairCreate { unit } => make_pair(state, sid, Some(*unit)),
        Command::Destroy { name } => destroy_half(state, sid, *name),
        Command::Vnet { name, path } => {
            let to = join(state.alloc, issuer, path)?;
            lend_half(state, sid, *name, &to)
        }
        Command::VnetBack { name, path } => {
            let from = join(state.alloc, issuer, path)?;
            reclaim_half(state, sid, *name, &from)
        }
        Command::Up { name } => set_up(state, sid, *name),
        Command::Down { name } => Ok(set_down(state, sid, *name)),
        Command::Ether { name, mac } => Ok(set_mac(state, sid, *name, *mac)),
        _ => unreachable!(),
    }
}
