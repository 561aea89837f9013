ghost use Rattle.std.specs.Prelude.{◌≡◌, IfOk, OnOk};
ghost use Rattle.vn_cells.specs.declared.event.Event.TheVariants.{Close as Closes, Next as Reads};
ghost use Rattle.vn_cells.specs.machine.Local.{lines_left};
ghost use Rattle.vn_cells.specs.machine.Readers.{close_rule, next_rule};
ghost use Rattle.vn_kernel.specs.Fields.{fields};
ghost use Rattle.vn_kernel.specs.Reading.{ReadsBy, Turns};
ghost use Rattle.vn_kernel.specs.Stands.{Stands};
ghost use Rattle.vn_kernel.specs.Worlds.{world_of};

use crate::state::State;
use vn_cells::{Entry, Outcome, What};
use vn_types::{Errno, NoMemory, Octets, Path};

/// A lane's reader at a path gives its next line (`next`).
pub(crate) fn read_next(state: &mut State, lane: u8, path: &Path) -> Result<(), NoMemory>
    requires { Stands (fields state.old) }
    ensures { OnOk result (Turns (Reads lane path.now) (fields state.old) (fields state.new)) }
{
    let clock = state.clock;
    let outcome = next_line(state, lane, path)?;
    let what = What::Next { lane, outcome };
    state.note(path, Entry { clock, what })
}

/// A lane's reader at a path is closed (`close`).
pub(crate) fn read_end(state: &mut State, lane: u8, path: &Path) -> Result<(), NoMemory>
    requires { Stands (fields state.old) }
    ensures { OnOk result (Turns (Closes lane path.now) (fields state.old) (fields state.new)) }
{
    let clock = state.clock;
    let outcome = close_reader(state, lane, path);
    let what = What::Close { lane, outcome };
    state.note(path, Entry { clock, what })
}

/// The next line of a lane's reader at a path, which is left no more.
fn next_line(state: &mut State, lane: u8, path: &Path) -> Result<Outcome, NoMemory>
    requires { Stands (fields state.old) }
    ensures { IfOk result (λ outcome.
        ReadsBy (next_rule lane) path.now outcome (fields state.old) (fields state.new)) }
{
    let Some(readers) = state.readers.get_mut(path) else {
        return Ok(Outcome::Refused(Errno::BadF));
    };
    match readers.next(lane) {
        Some(Some(line)) => Ok(Outcome::Value(line)),
        Some(None) => Ok(Outcome::Value(Octets::from_slice(state.alloc, b"end")?)),
        None => Ok(Outcome::Refused(Errno::BadF)),
    }
}

/// Closes a lane's reader at a path.
fn close_reader(state: &mut State, lane: u8, path: &Path) -> Outcome
    requires { Stands (fields state.old) }
    ensures { ReadsBy (close_rule lane) path.now result (fields state.old) (fields state.new) }
{
    let Some(readers) = state.readers.get_mut(path) else {
        return Outcome::Refused(Errno::BadF);
    };
    if readers.close(lane) {
        return Outcome::Done;
    }
    Outcome::Refused(Errno::BadF)
}

/// How many lines are left to a lane's reader at a path, where it has one.
pub(crate) fn remaining(state: &State, lane: u8, path: &Path) -> Option<u64>
    requires { Stands (fields state.now) }
    ensures { result ≡ lines_left (world_of (fields state.now)) lane path.now }
{
    state.readers.get(path)?.remaining(lane)
}
