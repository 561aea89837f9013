ghost use Rattle.std.specs.Prelude.{◌≡◌, ◌<◌, ◌≤◌, ◌+◌, ◌^◌, ◌==◌, ◌||◌, length};
ghost use Rattle.byteorder.specs.Endian.{big_from};
ghost use Rattle.vn_udpfmt.specs.Pseudo.{sum_behind_pseudo as sum_of_all};

use crate::bad::UdpBad;
use crate::pseudo::sum_behind_pseudo;
use byteorder::{BigEndian, ByteOrder};
use std::marker::Model;
use vn_types::Ip4;

// The octets of a header.
const HEADER: usize = 8;

/// A UDP datagram in octets that are borrowed. Octets behind its length may stand there too.
#[derive(Drop)]
pub struct UdpView<'a> {
    octets: &'a [u8],
}

impl<'a> Model for UdpView<'a> {
    ghost use Rattle.std.specs.Prelude.{ℕ, List, ◌≤◌, length};
    ghost use Rattle.vn_udpfmt.specs.Header.{header_size, header_of};

    ghost Value = { List ℕ };

    ghost view = { λ v. v.octets.now };

    ghost invariant = { λ v.
        (header_size ≤ (header_of v.octets.now).len)
        × ((header_of v.octets.now).len ≤ length v.octets.now) };
}

impl<'a> UdpView<'a> {
    ghost use Rattle.std.specs.Prelude.{◌≡◌, drop, IfOk};
    ghost use Rattle.vn_udpfmt.specs.Header.{header_size, header_of};
    ghost use Rattle.vn_udpfmt.specs.Datagram.{IsDatagram, udp_of, whole};

    /// The datagram at the head of the octets, which came from `src` to `dst`.
    pub fn read(body: &'a [u8], src: Ip4, dst: Ip4) -> Result<UdpView<'a>, UdpBad>
        ensures view { IfOk result (λ v. v ≡ body.entry.now) }
        ensures read { result ≡ udp_of src dst body.entry.now }
        ensures grammar { IfOk result (λ v. IsDatagram src dst v) }
    {
        if body.len() < HEADER {
            return Err(UdpBad::Short);
        }
        let len = usize::from(word_at(body, 4));
        if len < HEADER || body.len() < len {
            return Err(UdpBad::Length);
        }
        let checksum = word_at(body, 6);
        if !sums_up(checksum, src, dst, &body[..len]) {
            return Err(UdpBad::Checksum);
        }
        if word_at(body, 2) == 0 {
            return Err(UdpBad::Port);
        }
        Ok(UdpView { octets: body })
    }

    /// The source port.
    pub fn sport(&self) -> u16
        ensures { result ≡ (header_of self.now).sport }
    {
        word_at(self.octets, 0)
    }

    /// The destination port.
    pub fn dport(&self) -> u16
        ensures { result ≡ (header_of self.now).dport }
    {
        word_at(self.octets, 2)
    }

    /// What stands between the header and the end that the length tells.
    pub fn payload(&self) -> &'a [u8]
        ensures { result.now ≡ drop header_size (whole self.now) }
    {
        let octets = self.octets;
        let len = usize::from(word_at(octets, 4));
        let datagram = &octets[..len];
        &datagram[HEADER..]
    }
}

// RFC 768: "An all zero transmitted checksum value means that the transmitter generated no checksum".
fn sums_up(checksum: u16, src: Ip4, dst: Ip4, datagram: &[u8]) -> bool
    requires { length datagram.now < 2 ^ 16 }
    ensures { result ≡ (checksum == 0 || sum_of_all src dst datagram.now == 65535) }
{
    checksum == 0 || sum_behind_pseudo(src, dst, datagram) == 0xffff
}

fn word_at(octets: &[u8], place: usize) -> u16
    requires { place + 2 ≤ length octets.now }
    ensures { result ≡ big_from place 2 octets.now }
{
    BigEndian::read_u16(&octets[place..])
}
