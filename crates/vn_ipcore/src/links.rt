ghost use Rattle.std.specs.Prelude.{◌≡◌, true, Some, OnOk, filter};
ghost use Rattle.vn_types.specs.declared.interface.IfOf.TheVariants.{Half};
ghost use Rattle.vn_types.specs.Interfaces.{half_id_eq};
ghost use Rattle.vn_rules.specs.Addresses.{is_on};
ghost use Rattle.vn_rules.specs.LinkCommands.{down_rule};
ghost use Rattle.vn_packets.specs.AddressLinks.{all_announced, up_rule};
ghost use Rattle.vn_vmove.specs.Parts.{pair_at, parts};
ghost use Rattle.vn_vmove.specs.Sound.{IsSound, stands_at};
ghost use Rattle.vn_ipcore.specs.Scenes.{CanSend, HasRoom, Replaces, StandsIn, scene_of};
ghost use Rattle.vn_ipcore.specs.Announcing.{announced_of};

use crate::announcing::announcement;
use crate::sending::send_frame;
use std::alloc::Global;
use vn_inaddr::Addr;
use vn_types::{HalfId, If, NoMemory, Sid, same_interface};
use vn_vmove::Tables;

/// Sets a half that stands in the stack up (ifconfig(8), `up`). Where it was down, its addresses are
/// announced in their order.
#[tactic(auto, using(crate::proofs::Sent::pair_stands))]
pub fn come_up(alloc: Global, tables: &mut Tables, sid: Sid, half: HalfId) -> Result<(), NoMemory>
    requires sound { IsSound tables.old }
    requires stands { stands_at sid.0 half.side (pair_at tables.old half.pair) ≡ true }
    requires counters { HasRoom tables.old sid.0 }
    ensures { OnOk result (Replaces sid.0
        (up_rule half_id_eq (Some (Half half)) (scene_of tables.old sid.0)).otherwise.left tables.old tables.new) }
{
    let was_up = tables.pairs.is_up(half);
    tables.pairs.set_up(half, true);
    if was_up {
        return Ok(());
    }
    announce_all(alloc, tables, sid, half)
}

/// Sets a half that stands in the stack down (ifconfig(8), `down`). Queues and tables stay.
#[tactic(auto, using(crate::proofs::Sent::pair_stands))]
pub fn go_down(tables: &mut Tables, sid: Sid, half: HalfId)
    requires sound { IsSound tables.old }
    requires stands { stands_at sid.0 half.side (pair_at tables.old half.pair) ≡ true }
    ensures { Replaces sid.0
        (down_rule half_id_eq (Some (Half half)) (scene_of tables.old sid.0)).otherwise.left tables.old tables.new }
{
    tables.pairs.set_up(half, false);
}

/// Announces the addresses of a half in their order.
fn announce_all(alloc: Global, tables: &mut Tables, sid: Sid, half: HalfId) -> Result<(), NoMemory>
    requires here { StandsIn sid.0 half tables.old }
    requires counters { HasRoom tables.old sid.0 }
    ensures { OnOk result (Replaces sid.0 (all_announced half_id_eq half
        (filter (is_on half_id_eq (Half half)) (parts tables.old sid.0).addresses)
        (scene_of tables.old sid.0)) tables.old tables.new) }
{
    let mut place = 0;
    while let Some(addr) = tables.addrs.at(sid, place) {
        announce_own(alloc, tables, sid, half, addr)?;
        place += 1;
    }
    Ok(())
}

/// Announces an address of the stack, if it is one of the half.
#[tactic(auto, using(crate::proofs::Sent::half_exists))]
fn announce_own(
    alloc: Global,
    tables: &mut Tables,
    sid: Sid,
    half: HalfId,
    addr: Addr,
) -> Result<(), NoMemory>
    requires { CanSend 1 sid.0 half tables.old }
    ensures { OnOk result (Replaces sid.0
        (announced_of half addr (scene_of tables.old sid.0)) tables.old tables.new) }
{
    if !same_interface(addr.on, If::Half(half)) {
        return Ok(());
    }
    let frame = announcement(alloc, tables.pairs.mac(half), addr.ip)?;
    send_frame(tables, sid, half, frame);
    Ok(())
}
