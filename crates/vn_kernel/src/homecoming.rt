ghost use Rattle.std.specs.Prelude.{◌≡◌, IsSome, OnOk, slice_get};
ghost use Rattle.std.specs.Option.{option_and_then};
ghost use Rattle.vn_vmove.specs.Parts.{pair_at, parts};
ghost use Rattle.vn_vmove.specs.Sound.{IsSound};
ghost use Rattle.vn_kernel.specs.Fields.{fields};
ghost use Rattle.vn_kernel.specs.Removal.{ComesHome, SendsLentHome, lent_half};
ghost use Rattle.vn_kernel.specs.Stands.{HasStack, Stands};

use crate::state::State;
use vn_types::{HalfId, If, NoMemory, Sid};
use vn_vmove::{Tables, send_home};

/// Sends the halves home that stand in a stack and are homed elsewhere, in the order of its interfaces
/// (VNET(9), what `vnet_if_return` does as a jail goes).
pub(crate) fn send_lent_home(state: &mut State, sid: Sid) -> Result<(), NoMemory>
    requires { HasStack sid.0 (fields state.old) }
    ensures { OnOk result (SendsLentHome sid.0 (fields state.old) (fields state.new)) }
{
    // A half that leaves makes room for the next one at its place.
    let mut place = 0;
    for _step in 0..state.tables.ifs.count(sid) {
        match lent_at(&state.tables, sid, place) {
            Some(half) => send_half_home(state, half)?,
            None => place += 1,
        }
    }
    Ok(())
}

/// Sends a half home from where it stands.
fn send_half_home(state: &mut State, half: HalfId) -> Result<(), NoMemory>
    requires stands { Stands (fields state.old) }
    requires exists { IsSome (pair_at state.old.tables half.pair) }
    ensures { OnOk result (ComesHome half (fields state.old) (fields state.new)) }
{
    send_home(&mut state.tables, half)
}

/// The half at a place of a stack's interfaces, if it is homed elsewhere.
fn lent_at(tables: &Tables, sid: Sid, place: u64) -> Option<HalfId>
    requires { IsSound tables.now }
    ensures { result ≡ option_and_then (lent_half tables.now sid.0)
        (slice_get (parts tables.now sid.0).interfaces place) }
{
    match tables.ifs.at(sid, place)? {
        If::Lo0 => None,
        If::Half(half) => {
            if tables.pairs.home(half.pair) == sid {
                return None;
            }
            Some(half)
        }
    }
}
