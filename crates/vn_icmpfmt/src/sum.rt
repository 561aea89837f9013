ghost use Rattle.byteorder.specs.Endian.{big_bytes};
ghost use Rattle.std.specs.Prelude.{◌≡◌, ◌≤◌, ◌++◌, length, take, drop};
ghost use Rattle.vn_cksum.specs.Sums.{sum_of, complement};

use byteorder::{BigEndian, ByteOrder};
use vn_cksum::sum16_parts;

// An even number of octets, that are summed at once.
const PIECE: usize = 65536;

/// The one's complement sum of any number of octets.
pub fn sum16_long(octets: &[u8]) -> u16
    ensures { result ≡ sum_of octets.now }
{
    let mut sum: u16 = 0;
    let mut rest = octets;
    while rest.len() > PIECE {
        let (piece, tail) = rest.split_at(PIECE);
        // The sum stands for all octets before the piece.
        sum = sum16_parts(&sum.to_be_bytes(), piece);
        rest = tail;
    }
    sum16_parts(&sum.to_be_bytes(), rest)
}

/// Puts the checksum of a message into its field, which was 0.
pub fn put_checksum(message: &mut [u8])
    requires { 4 ≤ length message.old }
    ensures { message.new
        ≡ take 2 message.old
        ++ (big_bytes 2 (complement (sum_of message.old)) ++ drop 4 message.old) }
{
    let checksum = !sum16_long(message);
    let (_, rest) = message.split_at_mut(2);
    BigEndian::write_u16(rest, checksum);
}
