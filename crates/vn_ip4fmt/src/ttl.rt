ghost use Rattle.std.specs.Prelude.{◌≡◌, ◌≢◌, ℕ, ◌-◌, ◌≤◌, length, slice_index};
ghost use Rattle.vn_types.specs.Ip4Header.{header_of};
ghost use Rattle.vn_ip4fmt.specs.Heads.{head_of};
ghost use Rattle.vn_ip4fmt.specs.Datagram.{HasHeader, IsDatagram};
ghost use Rattle.vn_ip4fmt.specs.Checksum.{lowered};

use crate::checksum::renew_checksum;

/// Lowers the TTL of a datagram that is forwarded by one, and computes the header's checksum anew
/// (RFC 1812, section 5.3.1). Nothing is asked of the total length.
pub fn decrement(datagram: &mut [u8])
    requires reads { HasHeader datagram.old }
    requires lives { 1 ≤ (header_of datagram.old).ttl }
    ensures lowered { datagram.new ≡ lowered datagram.old }
    ensures head { head_of datagram.new
        ≡ record (head_of datagram.old) { ttl = (head_of datagram.old).ttl - 1 } }
    ensures reads { HasHeader datagram.new }
    ensures datagram { IsDatagram datagram.old → IsDatagram datagram.new }
    ensures len { length datagram.new ≡ length datagram.old }
    ensures others { (k : ℕ) → k ≢ 8 → k ≢ 10 → k ≢ 11
        → slice_index datagram.new k ≡ slice_index datagram.old k }
{
    let header_len = 4 * usize::from(datagram[0] % 16);
    let (header, _) = datagram.split_at_mut(header_len);
    header[8] -= 1;
    renew_checksum(header);
}
