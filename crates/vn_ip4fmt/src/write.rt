ghost use Rattle.std.specs.Prelude.{◌≡◌, ℕ, ◌<◌, ◌≤◌, ◌+◌, ◌*◌, [], ◌∷◌, ◌++◌, List, length, take};
ghost use Rattle.vn_types.specs.Fields.{FitWidths, bit, octets_of};
ghost use Rattle.vn_cksum.specs.Sums.{sum_of};
ghost use Rattle.vn_types.specs.Ip4Header.{fields, header_of, header_len, header_size};
ghost use Rattle.vn_ip4fmt.specs.Heads.{head_of, plain_header, plain_octets, plain_checksum};
ghost use Rattle.vn_ip4fmt.specs.Datagram.{IsDatagram};

use crate::checksum::renew_checksum;
use crate::head::Ip4Head;
use crate::place::place;
use byteorder::{BigEndian, ByteOrder};
use vn_types::Ip4;

/// Writes a header without options, with its checksum.
pub fn write_header(out: &mut [u8], head: &Ip4Head, total: u16)
    requires room { length out.old ≡ header_size }
    requires total { header_size ≤ total }
    requires offset { head.now.offset < 8192 }
    ensures written { out.new ≡ plain_octets head.now total (plain_checksum head.now total) }
    ensures sums_up { sum_of out.new ≡ 65535 }
    // With a body of the length that was told, it is a datagram, and is read as it was given, whatever
    // stands behind.
    ensures grammar { (body rest : List ℕ) → header_size + length body ≡ total
        → IsDatagram (out.new ++ (body ++ rest)) }
    ensures parts { (body rest : List ℕ) → header_size + length body ≡ total
        → (header_len (out.new ++ (body ++ rest)) ≡ header_size)
        × ((header_of (out.new ++ (body ++ rest))).total ≡ total)
        × (take total (out.new ++ (body ++ rest)) ≡ out.new ++ body) }
    ensures read_back { (body : List ℕ) → head_of (out.new ++ body) ≡ head.now }
{
    write_fields(out, *head, total);
    renew_checksum(out);
}

// A header whose checksum is 0 yet, in rows of four octets.
fn write_fields(out: &mut [u8], head: Ip4Head, total: u16)
    requires room { length out.old ≡ header_size }
    requires offset { head.offset < 8192 }
    ensures written { out.new ≡ plain_octets head total 0 }
    ensures fit { (checksum : ℕ) → checksum < 65536
        → FitWidths (fields (plain_header head total checksum)) }
{
    let (row, rest) = out.split_at_mut(4);
    write_row(row, 0x45, head.tos, total);
    let (row, rest) = rest.split_at_mut(4);
    write_place(row, head.id, head.df, head.mf, head.offset);
    let (row, rest) = rest.split_at_mut(4);
    write_row(row, head.ttl, head.proto, 0);
    let (row, rest) = rest.split_at_mut(4);
    write_address(row, head.src);
    write_address(rest, head.dst);
}

fn write_row(row: &mut [u8], first: u8, second: u8, word: u16)
    requires { length row.old ≡ 4 }
    ensures { row.new ≡ octets_of ((8, first) ∷ (8, second) ∷ (16, word) ∷ []) }
{
    let (octets, rest) = row.split_at_mut(2);
    octets.copy_from_slice(&[first, second]);
    BigEndian::write_u16(rest, word);
}

fn write_place(row: &mut [u8], id: u16, df: bool, mf: bool, offset: u16)
    requires row { length row.old ≡ 4 }
    requires offset { offset < 8192 }
    ensures { row.new
        ≡ octets_of ((16, id) ∷ (1, 0) ∷ (1, bit df) ∷ (1, bit mf) ∷ (13, offset) ∷ []) }
{
    let (first, second) = row.split_at_mut(2);
    BigEndian::write_u16(first, id);
    BigEndian::write_u16(second, place(df, mf, offset));
}

fn write_address(row: &mut [u8], ip: Ip4)
    requires { length row.old ≡ 4 }
    ensures { row.new ≡ octets_of ((32, ip.0) ∷ []) }
{
    BigEndian::write_u32(row, ip.0);
}
