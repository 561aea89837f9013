ghost use Rattle.std.specs.Prelude.{◌≡◌, ◌≢◌, ℕ, ◌≤◌, ◌+◌, ◌-◌, ◌++◌, [], ◌∷◌, List, length, take, drop, true};
ghost use Rattle.byteorder.specs.Endian.{big_bytes};
ghost use Rattle.vn_types.specs.Fields.{octets_of};
ghost use Rattle.vn_udpfmt.specs.Header.{header_size, header_of};
ghost use Rattle.vn_udpfmt.specs.Pseudo.{sum_behind_pseudo as sum_of_all};
ghost use Rattle.vn_udpfmt.specs.Datagram.{IsDatagram, whole};
ghost use Rattle.vn_udpfmt.specs.Written.{header_for, datagram_for, sent_for, checksum_for};

use crate::pseudo::sum_behind_pseudo;
use byteorder::{BigEndian, ByteOrder};
use vn_types::Ip4;

/// Writes a datagram, with a checksum if `sum` is true.
pub fn write_udp(
    out: &mut [u8],
    src: Ip4,
    dst: Ip4,
    sport: u16,
    dport: u16,
    octets: &[u8],
    sum: bool,
)
    requires room { length out.old ≡ header_size + length octets.now }
    requires size { length octets.now ≤ 65535 - header_size }
    requires port { dport ≢ 0 }
    ensures written { out.new
        ≡ datagram_for sport dport octets.now (checksum_for src dst sport dport octets.now sum) }
    // It is read as it was given, whatever stands behind it.
    ensures grammar { (rest : List ℕ) → IsDatagram src dst (out.new ++ rest) }
    ensures read_back { (rest : List ℕ) → header_of (out.new ++ rest)
        ≡ header_for sport dport octets.now (checksum_for src dst sport dport octets.now sum) }
    ensures payload { (rest : List ℕ) → drop header_size (whole (out.new ++ rest)) ≡ octets.now }
    ensures sums_up { sum ≡ true → sum_of_all src dst out.new ≡ 65535 }
    ensures told { sum ≡ true → (header_of out.new).checksum ≢ 0 }
{
    write_datagram(out, sport, dport, octets);
    if sum {
        let checksum = sent_for(sum_behind_pseudo(src, dst, out));
        put_checksum(out, checksum);
    }
}

fn put_checksum(out: &mut [u8], checksum: u16)
    requires { header_size ≤ length out.old }
    ensures { out.new ≡ take 6 out.old ++ (big_bytes 2 checksum ++ drop 8 out.old) }
{
    let (_, field) = out.split_at_mut(6);
    BigEndian::write_u16(field, checksum);
}

// RFC 768: "If the computed checksum is zero, it is transmitted as all ones".
fn sent_for(sum: u16) -> u16
    ensures { result ≡ sent_for sum }
{
    if sum == 0xffff { 0xffff } else { !sum }
}

// A datagram whose checksum is 0 yet.
fn write_datagram(out: &mut [u8], sport: u16, dport: u16, octets: &[u8])
    requires room { length out.old ≡ header_size + length octets.now }
    requires size { length octets.now ≤ 65535 - header_size }
    ensures { out.new ≡ datagram_for sport dport octets.now 0 }
{
    let len = out.len() as u16;
    let (header, payload) = out.split_at_mut(8);
    write_header(header, sport, dport, len);
    payload.copy_from_slice(octets);
}

fn write_header(out: &mut [u8], sport: u16, dport: u16, len: u16)
    requires { length out.old ≡ header_size }
    ensures { out.new ≡ octets_of ((16, sport) ∷ (16, dport) ∷ (16, len) ∷ (16, 0) ∷ []) }
{
    let (ports, rest) = out.split_at_mut(4);
    write_words(ports, sport, dport);
    write_words(rest, len, 0);
}

fn write_words(row: &mut [u8], first: u16, second: u16)
    requires { length row.old ≡ 4 }
    ensures { row.new ≡ octets_of ((16, first) ∷ (16, second) ∷ []) }
{
    let (front, back) = row.split_at_mut(2);
    BigEndian::write_u16(front, first);
    BigEndian::write_u16(back, second);
}
