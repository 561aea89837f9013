ghost use Rattle.std.specs.Prelude.{◌≡◌, ◌<◌, ◌^◌, length, [], ◌∷◌};
ghost use Rattle.vn_types.specs.Fields.{octets_of};
ghost use Rattle.vn_udpfmt.specs.Pseudo.{pseudo_fields, sum_behind_pseudo};

use byteorder::{BigEndian, ByteOrder};
use vn_cksum::sum16_parts;
use vn_types::Ip4;

const PROTOCOL: u8 = 17;

/// The sum of a whole datagram behind its pseudo header.
pub(crate) fn sum_behind_pseudo(src: Ip4, dst: Ip4, datagram: &[u8]) -> u16
    requires { length datagram.now < 2 ^ 16 }
    ensures { result ≡ sum_behind_pseudo src dst datagram.now }
{
    let mut pseudo = [0; 12];
    write_pseudo(&mut pseudo, src, dst, datagram.len() as u16);
    sum16_parts(&pseudo, datagram)
}

fn write_pseudo(out: &mut [u8], src: Ip4, dst: Ip4, len: u16)
    requires { length out.old ≡ 12 }
    ensures { out.new ≡ octets_of (pseudo_fields src dst len) }
{
    let (row, rest) = out.split_at_mut(4);
    write_address(row, src);
    let (row, rest) = rest.split_at_mut(4);
    write_address(row, dst);
    write_length(rest, len);
}

fn write_address(row: &mut [u8], ip: Ip4)
    requires { length row.old ≡ 4 }
    ensures { row.new ≡ octets_of ((32, ip.0) ∷ []) }
{
    BigEndian::write_u32(row, ip.0);
}

fn write_length(row: &mut [u8], len: u16)
    requires { length row.old ≡ 4 }
    ensures { row.new ≡ octets_of ((8, 0) ∷ (8, 17) ∷ (16, len) ∷ []) }
{
    let (protocol, rest) = row.split_at_mut(2);
    protocol.copy_from_slice(&[0, PROTOCOL]);
    BigEndian::write_u16(rest, len);
}
