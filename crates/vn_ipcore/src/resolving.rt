ghost use Rattle.std.specs.Prelude.{◌≡◌, false, length, IfOk, OnOk};
ghost use Rattle.vn_types.specs.Interfaces.{half_id_eq};
ghost use Rattle.vn_packets.specs.ArpPackets.{arp_frame, arp_heard, arp_received, is_stranger as is_stranger_to, reply, sent_datagrams};
ghost use Rattle.vn_vmove.specs.Parts.{parts};
ghost use Rattle.vn_ipcore.specs.Scenes.{CanSend, IsReady, Replaces, scene_of};

use crate::sending::{frame_of_arp, send_datagram, send_frame};
use bytes::Bytes;
use std::alloc::Global;
use vn_arp::Packets;
use vn_link::ArpPacket;
use vn_types::{HalfId, If, Ip4, Mac, NoMemory, Sid};
use vn_vmove::{Tables, Tally};

const REPLY: u16 = 2;

/// An ARP packet comes to a half that stands in the stack (RFC 826, "Packet Reception"). It counts for nothing
/// where its sender does.
#[tactic(auto, using(crate::proofs::Sent::stack_lives))]
pub fn input_arp(
    alloc: Global,
    tables: &mut Tables,
    sid: Sid,
    half: HalfId,
    octets: &[u8],
    now: u64,
) -> Result<(), NoMemory>
    requires { IsReady sid.0 half now tables.old }
    ensures { OnOk result (Replaces sid.0
        (arp_received half_id_eq (record { clock = now }) half octets.now (scene_of tables.old sid.0)) tables.old tables.new) }
{
    match ArpPacket::read(octets) {
        Ok(packet) if !is_stranger(tables, sid, half, packet.spa) => {
            hear(alloc, tables, sid, half, packet, now)
        }
        _ => {
            tables.tallies.count(sid, Tally::Arp, 1);
            Ok(())
        }
    }
}

/// Whether the sender of a packet counts for nothing.
fn is_stranger(tables: &Tables, sid: Sid, half: HalfId, ip: Ip4) -> bool
    ensures { result ≡ is_stranger_to half_id_eq half ip (parts tables.now sid.0) }
{
    tables.addrs.local(sid, ip) || !tables.routes.covers(sid, If::Half(half), ip)
}

/// The sender is learnt, what waited for it is sent, and then a request is replied to.
fn hear(
    alloc: Global,
    tables: &mut Tables,
    sid: Sid,
    half: HalfId,
    packet: ArpPacket,
    now: u64,
) -> Result<(), NoMemory>
    requires ready { IsReady sid.0 half now tables.old }
    requires known { is_stranger_to half_id_eq half packet.spa (parts tables.old sid.0) ≡ false }
    ensures { OnOk result (Replaces sid.0
        (arp_heard half_id_eq (record { clock = now }) half packet (scene_of tables.old sid.0)) tables.old tables.new) }
{
    let is_mine = tables.addrs.on_interface(sid, If::Half(half), packet.tpa);
    let learned = tables
        .arp
        .input(sid, half, &packet, is_mine, now, &mut tables.wheel)?;
    let reply = learned.reply;
    send_all(alloc, tables, sid, half, packet.sha, learned.release)?;
    if !reply {
        return Ok(());
    }
    let frame = reply_frame(alloc, tables.pairs.mac(half), packet)?;
    send_frame(tables, sid, half, frame);
    Ok(())
}

/// A half that stands in the stack sends datagrams to a station, one after another.
fn send_all(
    alloc: Global,
    tables: &mut Tables,
    sid: Sid,
    half: HalfId,
    to: Mac,
    packets: Packets,
) -> Result<(), NoMemory>
    requires { CanSend (length packets) sid.0 half tables.old }
    ensures { OnOk result (Replaces sid.0
        (sent_datagrams half_id_eq half to packets (scene_of tables.old sid.0)) tables.old tables.new) }
{
    let mut packets = packets;
    while let Some(datagram) = packets.take() {
        send_datagram(alloc, tables, sid, half, to, &datagram)?;
    }
    Ok(())
}

/// The frame by which a half of that hardware address replies to a request.
fn reply_frame(alloc: Global, mac: Mac, packet: ArpPacket) -> Result<Bytes, NoMemory>
    ensures { IfOk result (λ frame. frame ≡ arp_frame packet.sha (reply mac packet)) }
{
    let answer = ArpPacket {
        op: REPLY,
        sha: mac,
        spa: packet.tpa,
        tha: packet.sha,
        tpa: packet.spa,
    };
    frame_of_arp(alloc, packet.sha, answer)
}
