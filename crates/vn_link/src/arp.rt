ghost use Rattle.std.specs.Prelude.{◌≡◌, ℕ, ◌<◌, ◌++◌, ◌^◌, ◌⊎◌, ◌≤◌, List, [], ◌∷◌, IfNone, IfOk, drop, length};
ghost use Rattle.vn_types.specs.Fields.{octets_of};
ghost use Rattle.vn_link.specs.Macs.{IsMac, number_of};
ghost use Rattle.vn_link.specs.Packets.{arp_refusal, packet_size};

use crate::mac::{mac_at, write_mac};
use byteorder::{BigEndian, ByteOrder};
use vn_types::{Ip4, Mac};

const LENGTH: usize = 28;

const ETHERNET: u16 = 1;

const IPV4: u16 = 0x0800;

const MAC_OCTETS: u8 = 6;

const IP4_OCTETS: u8 = 4;

const REQUEST: u16 = 1;

const REPLY: u16 = 2;

/// Why octets are no ARP packet about Ethernet and IPv4: too few, or the first field that differs.
#[derive(Clone, Copy, PartialEq, Eq)]
pub enum ArpBad {
    Short,
    Hrd,
    Pro,
    Hln,
    Pln,
    Op,
}

/// An ARP packet (RFC 826): the operation, 1 for a request and 2 for a reply, and the hardware and
/// protocol addresses of the sender and the target.
#[derive(Clone, Copy, PartialEq, Eq)]
pub struct ArpPacket {
    pub op: u16,
    pub sha: Mac,
    pub spa: Ip4,
    pub tha: Mac,
    pub tpa: Ip4,
}

impl ArpPacket {
    ghost use Rattle.vn_link.specs.declared.arp.TheConstants.{REQUEST, REPLY};
    ghost use Rattle.vn_link.specs.Packets.{IsPacket, arp_octets, arp_of};

    /// The packet that octets spell. Those behind it count for nothing.
    pub fn read(octets: &[u8]) -> Result<ArpPacket, ArpBad>
        ensures read { result ≡ arp_of octets.now }
        ensures grammar { IfOk result (λ p. IsPacket octets.now) }
        // A packet is written as it was read.
        ensures spelled { IfOk result (λ p.
            arp_octets p ++ drop packet_size octets.now ≡ octets.now) }
    {
        match refusal(octets) {
            Some(bad) => Err(bad),
            None => Ok(ArpPacket {
                op: BigEndian::read_u16(&octets[6..]),
                sha: mac_at(octets, 8),
                spa: Ip4(BigEndian::read_u32(&octets[14..])),
                tha: mac_at(octets, 18),
                tpa: Ip4(BigEndian::read_u32(&octets[24..])),
            }),
        }
    }

    /// Writes the packet, which is the payload of a frame of type 0x0806.
    pub fn write(&self, out: &mut [u8])
        requires op { (self.now.op ≡ REQUEST) ⊎ (self.now.op ≡ REPLY) }
        requires room { length out.old ≡ packet_size }
        ensures written { out.new ≡ arp_octets self.now }
        // What is written is read, whatever stands behind it.
        ensures read_back { (rest : List ℕ) → arp_of (out.new ++ rest) ≡ Ok self.now }
    {
        let (kinds, rest) = out.split_at_mut(2);
        BigEndian::write_u16(kinds, ETHERNET);
        let (protocol, rest) = rest.split_at_mut(2);
        BigEndian::write_u16(protocol, IPV4);
        let (lengths, rest) = rest.split_at_mut(2);
        lengths[0] = MAC_OCTETS;
        lengths[1] = IP4_OCTETS;
        let (op, rest) = rest.split_at_mut(2);
        BigEndian::write_u16(op, self.op);
        let (sender, target) = rest.split_at_mut(10);
        write_addresses(sender, self.sha, self.spa);
        write_addresses(target, self.tha, self.tpa);
    }
}

// RFC 826, "Packet Reception": "?Do I have the hardware type in ar$hrd?" and "?Do I speak the protocol in
// ar$pro?", each with a length that is "optionally" checked.
fn refusal(octets: &[u8]) -> Option<ArpBad>
    ensures first { result ≡ arp_refusal octets.now }
    ensures long { IfNone result (packet_size ≤ length octets.now) }
{
    if octets.len() < LENGTH {
        return Some(ArpBad::Short);
    }
    if BigEndian::read_u16(octets) != ETHERNET {
        return Some(ArpBad::Hrd);
    }
    if BigEndian::read_u16(&octets[2..]) != IPV4 {
        return Some(ArpBad::Pro);
    }
    if octets[4] != MAC_OCTETS {
        return Some(ArpBad::Hln);
    }
    if octets[5] != IP4_OCTETS {
        return Some(ArpBad::Pln);
    }
    let op = BigEndian::read_u16(&octets[6..]);
    if op != REQUEST && op != REPLY {
        return Some(ArpBad::Op);
    }
    None
}

// A hardware address and a protocol address.
fn write_addresses(out: &mut [u8], mac: Mac, ip: Ip4)
    requires { length out.old ≡ 10 }
    ensures written { out.new ≡ octets_of ((48, number_of mac) ∷ (32, ip.0) ∷ []) }
    ensures mac { IsMac mac }
    ensures ip { ip.0 < 2 ^ 32 }
{
    let (front, back) = out.split_at_mut(6);
    write_mac(front, mac);
    BigEndian::write_u32(back, ip.0);
}
