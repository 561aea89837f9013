use crate::sum::sum16_long;
use byteorder::{BigEndian, ByteOrder};
use std::marker::Model;

// The octets before the data.
const HEADER: usize = 8;

/// Why octets are no ICMP message.
#[derive(Clone, Copy, PartialEq, Eq)]
pub enum IcmpBad {
    Short,
    Checksum,
}

/// An ICMP message in the octets that it was read from.
#[derive(Drop)]
pub struct IcmpView<'a> {
    body: &'a [u8],
}

impl<'a> Model for IcmpView<'a> {
    ghost use Rattle.std.specs.Prelude.{◌≤◌, length};
    ghost use Rattle.vn_icmpfmt.specs.Messages.{Message, header_size, message_of};

    ghost Value = { Message };

    ghost view = { λ v. message_of v.body.now };

    ghost invariant = { λ v. header_size ≤ length v.body.now };
}

impl<'a> IcmpView<'a> {
    ghost use Rattle.std.specs.Prelude.{◌≡◌, IfOk};
    ghost use Rattle.vn_icmpfmt.specs.Grammar.{IsMessage, icmp_of};
    ghost use Rattle.vn_icmpfmt.specs.Messages.{header_of, message_with};

    /// The message that octets spell.
    pub fn read(body: &'a [u8]) -> Result<IcmpView<'a>, IcmpBad>
        ensures read { result ≡ icmp_of body.entry.now }
        ensures grammar { IfOk result (λ v. IsMessage body.entry.now) }
        // A message is written as it was read.
        ensures spelled { IfOk result (λ v.
            message_with v (header_of body.entry.now).checksum ≡ body.entry.now) }
    {
        if body.len() < HEADER {
            return Err(IcmpBad::Short);
        }
        if sum16_long(body) != 0xffff {
            return Err(IcmpBad::Checksum);
        }
        Ok(IcmpView { body })
    }

    /// The type, as 8 for an echo and 0 for an echo reply.
    pub fn kind(&self) -> u8
        ensures { result ≡ self.now.kind }
    {
        self.body[0]
    }

    pub fn code(&self) -> u8
        ensures { result ≡ self.now.code }
    {
        self.body[1]
    }

    /// The identifier of an echo or echo reply.
    pub fn id(&self) -> u16
        ensures { result ≡ self.now.id }
    {
        BigEndian::read_u16(&self.body[4..])
    }

    /// The sequence number of an echo or echo reply.
    pub fn seq(&self) -> u16
        ensures { result ≡ self.now.seq }
    {
        BigEndian::read_u16(&self.body[6..])
    }

    /// The octets behind the first eight: an echo's data, or what an error quotes.
    pub fn rest(&self) -> &'a [u8]
        ensures { result.now ≡ self.now.rest }
    {
        &self.body[HEADER..]
    }
}
