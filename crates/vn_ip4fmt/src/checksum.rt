ghost use Rattle.std.specs.Prelude.{◌≡◌, ◌≤◌, length};
ghost use Rattle.vn_cksum.specs.Sums.{sum_of};
ghost use Rattle.vn_ip4fmt.specs.Checksum.{with_checksum, renewed};

use byteorder::{BigEndian, ByteOrder};
use vn_cksum::sum16;

/// Computes a header's checksum anew.
pub(crate) fn renew_checksum(header: &mut [u8])
    requires long_enough { 12 ≤ length header.old }
    requires short_enough { length header.old ≤ 60 }
    ensures renewed { header.new ≡ renewed header.old }
    ensures sums_up { sum_of header.new ≡ 65535 }
{
    put_checksum(header, 0);
    let sum = sum16(header);
    put_checksum(header, !sum);
}

fn put_checksum(header: &mut [u8], checksum: u16)
    requires { 12 ≤ length header.old }
    ensures { header.new ≡ with_checksum checksum header.old }
{
    let (_, rest) = header.split_at_mut(10);
    BigEndian::write_u16(rest, checksum);
}
