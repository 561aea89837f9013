ghost use Rattle.std.specs.Prelude.{◌≡◌, ◌⊎◌, IfOk, OnOk};
ghost use Rattle.vn_types.specs.Interfaces.{half_id_eq};
ghost use Rattle.vn_packets.specs.ArpPackets.{arp_frame, reply_op, request_op, sent_datagram};
ghost use Rattle.vn_packets.specs.Datagrams.{frame_with};
ghost use Rattle.vn_packets.specs.Links.{sent};
ghost use Rattle.vn_ipcore.specs.Scenes.{CanSend, Replaces, scene_of};

use bytes::Bytes;
use std::alloc::Global;
use vn_link::{ArpPacket, write_eth};
use vn_types::{HalfId, Mac, NoMemory, Sid};
use vn_vmove::{Tables, Tally};

/// The octets of a frame's header (RFC 894).
const HEADER: usize = 14;

/// The octets of an ARP packet (RFC 826).
const ARP_PACKET: usize = 28;

/// The type of a frame with an ARP packet.
const ARP: u16 = 0x0806;

/// The type of a frame with a datagram.
const IP4: u16 = 0x0800;

/// The frame of an ARP packet to a station, from the hardware address that the packet tells.
pub(crate) fn frame_of_arp(alloc: Global, to: Mac, packet: ArpPacket) -> Result<Bytes, NoMemory>
    requires { (packet.op ≡ request_op) ⊎ (packet.op ≡ reply_op) }
    ensures { IfOk result (λ frame. frame ≡ arp_frame to packet) }
{
    let mut octets = [0; ARP_PACKET];
    packet.write(&mut octets);
    frame_of(alloc, to, packet.sha, ARP, &octets)
}

/// A half that stands in the stack sends a datagram to a station.
#[tactic(auto, using(crate::proofs::Sent::half_exists))]
pub(crate) fn send_datagram(
    alloc: Global,
    tables: &mut Tables,
    sid: Sid,
    half: HalfId,
    to: Mac,
    datagram: &[u8],
) -> Result<(), NoMemory>
    requires { CanSend 1 sid.0 half tables.old }
    ensures { OnOk result (Replaces sid.0
        (sent_datagram half_id_eq half to datagram.now (scene_of tables.old sid.0)) tables.old tables.new) }
{
    let from = tables.pairs.mac(half);
    let frame = frame_of(alloc, to, from, IP4, datagram)?;
    send_frame(tables, sid, half, frame);
    Ok(())
}

/// The frame of a payload, to and from a station.
#[tactic(auto, unfolding(vn_packets::specs::Datagrams::frame_with))]
fn frame_of(alloc: Global, to: Mac, from: Mac, kind: u16, payload: &[u8]) -> Result<Bytes, NoMemory>
    ensures { IfOk result (λ frame. frame ≡ frame_with to from kind payload.now) }
{
    let mut header = [0; HEADER];
    write_eth(&mut header, to, from, kind);
    let mut octets = Vec::with_capacity(alloc, HEADER + payload.len())?;
    octets.extend_from_slice(&header)?;
    octets.extend_from_slice(payload)?;
    Ok(Bytes::from_vec(octets)?)
}

/// A half that stands in the stack sends a frame. It is lost where the half is down, and then where the
/// queue is full.
#[tactic(auto, using(crate::proofs::Sent::half_exists, crate::proofs::Sent::stack_lives))]
pub(crate) fn send_frame(tables: &mut Tables, sid: Sid, half: HalfId, frame: Bytes)
    requires { CanSend 1 sid.0 half tables.old }
    ensures { Replaces sid.0 (sent half_id_eq half frame (scene_of tables.old sid.0)) tables.old tables.new }
{
    if !tables.pairs.is_up(half) {
        tables.tallies.count(sid, Tally::Link, 1);
        return;
    }
    if tables.pairs.send(half, frame).is_err() {
        tables.tallies.count(sid, Tally::Full, 1);
    }
}
