ghost use Rattle.std.specs.Prelude.{◌≡◌, ◌++◌, List, ℕ, length, IfOk};
ghost use Rattle.vn_link.specs.Frames.{eth_header, eth_of, header_size};

use crate::mac::{mac_at, write_mac};
use byteorder::{BigEndian, ByteOrder};
use std::marker::Model;
use vn_types::Mac;

// The octets of a header (RFC 894).
const HEADER: usize = 14;

/// Why octets are no Ethernet frame.
#[derive(Clone, Copy, PartialEq, Eq)]
pub enum EthBad {
    Short,
}

/// An Ethernet frame (RFC 894) in the octets that it was read from.
#[derive(Drop)]
pub struct EthView<'a> {
    frame: &'a [u8],
}

impl<'a> Model for EthView<'a> {
    ghost use Rattle.std.specs.Prelude.{◌≤◌, length};
    ghost use Rattle.vn_link.specs.Frames.{EthFrame, frame_of, header_size};

    ghost Value = { EthFrame };

    ghost view = { λ v. frame_of v.frame.now };

    ghost invariant = { λ v. header_size ≤ length v.frame.now };
}

impl<'a> EthView<'a> {
    /// The frame that octets spell.
    pub fn read(frame: &'a [u8]) -> Result<EthView<'a>, EthBad>
        ensures read { result ≡ eth_of frame.entry.now }
        // A frame is written as it was read.
        ensures spelled { IfOk result (λ v.
            eth_header v.dst v.src v.kind ++ v.payload ≡ frame.entry.now) }
    {
        if frame.len() < HEADER {
            return Err(EthBad::Short);
        }
        Ok(EthView { frame })
    }

    /// The station that the frame is for.
    pub fn dst(&self) -> Mac
        ensures { result ≡ self.now.dst }
    {
        mac_at(self.frame, 0)
    }

    /// The station that sent it.
    pub fn src(&self) -> Mac
        ensures { result ≡ self.now.src }
    {
        mac_at(self.frame, 6)
    }

    /// The type field, as 0x0800 for IPv4 and 0x0806 for ARP.
    pub fn kind(&self) -> u16
        ensures { result ≡ self.now.kind }
    {
        BigEndian::read_u16(&self.frame[12..])
    }

    /// The octets behind the header.
    pub fn payload(&self) -> &'a [u8]
        ensures { result.now ≡ self.now.payload }
    {
        &self.frame[HEADER..]
    }
}

/// Writes the header of a frame (RFC 894). Its payload is the caller's.
pub fn write_eth(out: &mut [u8], dst: Mac, src: Mac, kind: u16)
    requires { length out.old ≡ header_size }
    ensures written { out.new ≡ eth_header dst src kind }
    // What is written is read, whatever payload follows.
    ensures read_back { (payload : List ℕ) → eth_of (out.new ++ payload) ≡ Ok (record {
      dst = dst;
      src = src;
      kind = kind;
      payload = payload;
    }) }
{
    let (head, rest) = out.split_at_mut(6);
    write_mac(head, dst);
    let (middle, last) = rest.split_at_mut(6);
    write_mac(middle, src);
    BigEndian::write_u16(last, kind);
}
