ghost use Rattle.std.specs.Prelude.{◌≡◌, IfOk, OnErr, OnOk};
ghost use Rattle.vn_types.specs.Interfaces.{half_id_eq};
ghost use Rattle.vn_packets.specs.ArpPackets.{announced, arp_frame, gratuitous};
ghost use Rattle.vn_packets.specs.Datagrams.{broadcast_mac};
ghost use Rattle.vn_ipcore.specs.Scenes.{HasRoom, Replaces, StandsIn, scene_of};

use crate::sending::{frame_of_arp, send_frame};
use bytes::Bytes;
use std::alloc::Global;
use vn_link::ArpPacket;
use vn_types::{HalfId, Ip4, Mac, NoMemory, Sid};
use vn_vmove::Tables;

const REQUEST: u16 = 1;

const NO_MAC: Mac = Mac([0; 6]);

const BROADCAST: Mac = Mac([0xff; 6]);

/// Tells an address of a half that stands in the stack to all (RFC 5227, section 2.3): the half asks for it.
#[tactic(auto, using(crate::proofs::Sent::half_exists))]
pub fn announce(
    alloc: Global,
    tables: &mut Tables,
    sid: Sid,
    half: HalfId,
    ip: Ip4,
) -> Result<(), NoMemory>
    requires here { StandsIn sid.0 half tables.old }
    requires counters { HasRoom tables.old sid.0 }
    ensures announced { OnOk result (Replaces sid.0
        (announced half_id_eq half ip (scene_of tables.old sid.0)) tables.old tables.new) }
    ensures no_memory { OnErr result (tables.new ≡ tables.old) }
{
    let frame = announcement(alloc, tables.pairs.mac(half), ip)?;
    send_frame(tables, sid, half, frame);
    Ok(())
}

/// The frame by which a half of that hardware address tells an address of its own.
pub(crate) fn announcement(alloc: Global, mac: Mac, ip: Ip4) -> Result<Bytes, NoMemory>
    ensures { IfOk result (λ frame. frame ≡ arp_frame broadcast_mac (gratuitous mac ip)) }
{
    let packet = ArpPacket {
        op: REQUEST,
        sha: mac,
        spa: ip,
        tha: NO_MAC,
        tpa: ip,
    };
    frame_of_arp(alloc, BROADCAST, packet)
}
