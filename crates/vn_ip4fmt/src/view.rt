use crate::bad::IpBad;
use crate::head::Ip4Head;
use crate::place::{df_of, mf_of, offset_of};
use byteorder::{BigEndian, ByteOrder};
use std::marker::Model;
use vn_cksum::sum16;
use vn_types::Ip4;

// The octets of a header without options.
const HEADER: usize = 20;

/// An IPv4 datagram in octets that are borrowed. Octets behind its total length may stand there too.
#[derive(Drop)]
pub struct Ip4View<'a> {
    octets: &'a [u8],
}

impl<'a> Model for Ip4View<'a> {
    ghost use Rattle.std.specs.Prelude.{ℕ, List};
    ghost use Rattle.vn_ip4fmt.specs.Datagram.{IsDatagram};

    ghost Value = { List ℕ };

    ghost view = { λ v. v.octets.now };

    ghost invariant = { λ v. IsDatagram v.octets.now };
}

impl<'a> Ip4View<'a> {
    ghost use Rattle.std.specs.Prelude.{◌≡◌, take, drop, IfOk};
    ghost use Rattle.vn_types.specs.Ip4Header.{header_of, header_len};
    ghost use Rattle.vn_ip4fmt.specs.Heads.{head_of};
    ghost use Rattle.vn_ip4fmt.specs.Datagram.{IsDatagram, ip4_of};

    /// The datagram at the head of the octets.
    pub fn read(octets: &'a [u8]) -> Result<Ip4View<'a>, IpBad>
        ensures view { IfOk result (λ v. v ≡ octets.entry.now) }
        ensures read { result ≡ ip4_of octets.entry.now }
        ensures grammar { IfOk result (λ v. IsDatagram v) }
    {
        if octets.len() < HEADER {
            return Err(IpBad::Short);
        }
        // RFC 1122, section 3.2.1.1: "A datagram whose version number is not 4 MUST be silently discarded."
        if octets[0] / 16 != 4 {
            return Err(IpBad::Version);
        }
        let header_len = 4 * usize::from(octets[0] % 16);
        // RFC 791, section 3.1, on the IHL: "the minimum value for a correct header is 5".
        if header_len < HEADER || octets.len() < header_len {
            return Err(IpBad::HeaderLen);
        }
        // RFC 1122, section 3.2.1.2: "A host MUST verify the IP header checksum on every received datagram".
        if sum16(&octets[..header_len]) != 0xffff {
            return Err(IpBad::Checksum);
        }
        let total = usize::from(BigEndian::read_u16(&octets[2..]));
        if total < header_len || octets.len() < total {
            return Err(IpBad::TotalLen);
        }
        Ok(Ip4View { octets })
    }

    /// The fields of the header.
    pub fn head(&self) -> Ip4Head
        ensures head { result ≡ head_of self.now }
        ensures datagram { IsDatagram self.now }
    {
        let octets = self.octets;
        let flags = octets[6];
        Ip4Head {
            tos: octets[1],
            id: BigEndian::read_u16(&octets[4..]),
            df: df_of(flags),
            mf: mf_of(flags),
            offset: offset_of(BigEndian::read_u16(&octets[6..])),
            ttl: octets[8],
            proto: octets[9],
            src: Ip4(BigEndian::read_u32(&octets[12..])),
            dst: Ip4(BigEndian::read_u32(&octets[16..])),
        }
    }

    /// The whole header, with its options.
    pub fn header(&self) -> &'a [u8]
        ensures { result.now ≡ take (header_len self.now) self.now }
    {
        let octets = self.octets;
        &octets[..4 * usize::from(octets[0] % 16)]
    }

    /// What stands between the header and the total length.
    pub fn body(&self) -> &'a [u8]
        ensures { result.now
            ≡ drop (header_len self.now) (take (header_of self.now).total self.now) }
    {
        let octets = self.octets;
        let total = usize::from(BigEndian::read_u16(&octets[2..]));
        let datagram = &octets[..total];
        &datagram[4 * usize::from(octets[0] % 16)..]
    }
}
