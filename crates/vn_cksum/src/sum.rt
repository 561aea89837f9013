ghost use Rattle.std.specs.Prelude.{◌≡◌, ◌<◌, ◌≤◌, ◌+◌, ◌*◌, ◌/◌, ◌%◌, ◌^◌, ◌++◌, length, sum};
ghost use Rattle.vn_cksum.specs.Sums.{words_of, sum_of, folded};

use byteorder::{BigEndian, ByteOrder};

/// The one's complement sum of the big-endian words of the octets (RFC 1071). A checksum field holds
/// the complement of the sum.
pub fn sum16(octets: &[u8]) -> u16
    requires { length octets.now ≤ 65536 }
    ensures { result ≡ sum_of octets.now }
{
    fold(total(octets))
}

/// The sum of both in a row.
pub fn sum16_parts(first: &[u8], second: &[u8]) -> u16
    requires first_small { length first.now ≤ 65536 }
    requires second_small { length second.now ≤ 65536 }
    requires even { length first.now % 2 ≡ 0 }
    ensures { result ≡ sum_of (first.now ++ second.now) }
{
    fold(total(first) + total(second))
}

// The carries are left in the upper half, to be added at the end (RFC 1071, section 2).
fn total(octets: &[u8]) -> u32
    requires { length octets.now ≤ 65536 }
    ensures words { result ≡ sum (words_of octets.now) }
    ensures small { result < 2 ^ 31 }
{
    let mut total: u32 = 0;
    let mut rest = octets;
    while rest.len() > 1 {
        let (word, tail) = rest.split_at(2);
        total += u32::from(BigEndian::read_u16(word));
        rest = tail;
    }
    match rest {
        [last] => total + u32::from(*last) * 256,
        _ => total,
    }
}

fn fold(total: u32) -> u16
    ensures { result ≡ folded total }
{
    let once = (total & 0xffff) + (total >> 16);
    ((once & 0xffff) + (once >> 16)) as u16
}
