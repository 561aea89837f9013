ghost use Rattle.std.specs.Prelude.{◌≡◌};
ghost use Rattle.vn_icmpfmt.specs.Quotes.{quote_of};

use byteorder::{BigEndian, ByteOrder};
use vn_types::Ip4;

// The octets of a header without options.
const HEADER: usize = 20;

/// What an error tells of the datagram that it is about: protocol, addresses, and the first octets of
/// the data.
#[derive(Clone, Copy, PartialEq, Eq)]
pub struct Quote {
    pub proto: u8,
    pub src: Ip4,
    pub dst: Ip4,
    pub first: [u8; 8],
}

/// The quote in the octets behind the first eight of an error, or None where it is not whole.
pub fn read_quote(rest: &[u8]) -> Option<Quote>
    ensures { result ≡ quote_of rest.now }
{
    if rest.len() < HEADER || rest[0] / 16 != 4 {
        return None;
    }
    let header = 4 * usize::from(rest[0] % 16);
    if header < HEADER || rest.len() < header + 8 {
        return None;
    }
    let mut first = [0; 8];
    first.copy_from_slice(&rest[header..header + 8]);
    Some(Quote {
        proto: rest[9],
        src: Ip4(BigEndian::read_u32(&rest[12..])),
        dst: Ip4(BigEndian::read_u32(&rest[16..])),
        first,
    })
}
