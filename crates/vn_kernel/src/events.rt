ghost use Rattle.std.specs.Prelude.{◌≡◌, IfOk, IsTrue, OnOk, true};
ghost use Rattle.vn_cells.specs.machine.Events.{IsValidEvent, is_built, is_built_command, is_valid_command};
ghost use Rattle.vn_cells.specs.machine.Step.{commanded};
ghost use Rattle.vn_kernel.specs.Fields.{fields};
ghost use Rattle.vn_kernel.specs.Stands.{HasRoom, Leaves, Ran, Stands, Stepped};
ghost use Rattle.vn_kernel.specs.Worlds.{world_of};

use crate::reading::{read_end, read_next};
use crate::running::run_living;
use crate::state::State;
use vn_cells::{Command, Entry, Event, Outcome, What};
use vn_types::{Boxed, Errno, NoMemory, Path};

/// Moves the state by one event, as the machine does.
pub(crate) fn happen(state: &mut State, event: &Event) -> Result<(), NoMemory>
    requires stands { Stands (fields state.old) }
    requires room { HasRoom (fields state.old) }
    requires valid { IsValidEvent event.now }
    requires built { is_built event.now ≡ true }
    ensures { OnOk result (Stepped event.now (fields state.old) (fields state.new)) }
{
    match event {
        Event::Cmd {
            lane,
            path,
            command,
        } => run_command(state, *lane, path, command),
        Event::Next { lane, path } => read_next(state, *lane, path),
        Event::Close { lane, path } => read_end(state, *lane, path),
        _ => unreachable!(),
    }
}

/// Runs a command at a path, and adds its entry to the transcript there.
fn run_command(
    state: &mut State,
    lane: u8,
    issuer: &Path,
    command: &Command,
) -> Result<(), NoMemory>
    requires stands { Stands (fields state.old) }
    requires room { HasRoom (fields state.old) }
    requires valid { IsTrue (is_valid_command issuer.now command.now) }
    requires built { is_built_command command.now ≡ true }
    ensures { OnOk result (Leaves (commanded lane issuer.now command.now (world_of (fields state.old)))
        (fields state.old) (fields state.new)) }
{
    let clock = state.clock;
    let outcome = run_at(state, issuer, command)?;
    let command = Boxed::new(state.alloc, command.copy()?)?;
    let what = What::Cmd {
        lane,
        command,
        outcome,
    };
    state.note(issuer, Entry { clock, what })
}

/// What a command does at a path, if it is not refused, and what it is answered.
fn run_at(state: &mut State, issuer: &Path, command: &Command) -> Result<Outcome, NoMemory>
    requires stands { Stands (fields state.old) }
    requires room { HasRoom (fields state.old) }
    requires valid { IsTrue (is_valid_command issuer.now command.now) }
    requires built { is_built_command command.now ≡ true }
    ensures { IfOk result (λ outcome.
        Ran issuer.now command.now outcome (fields state.old) (fields state.new)) }
{
    match state.jails.alive(issuer) {
        None => Ok(Outcome::Refused(Errno::NoEnt)),
        Some(sid) => run_living(state, sid, issuer, command),
    }
}
