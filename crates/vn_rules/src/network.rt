ghost use Rattle.std.specs.Prelude.{◌≡◌, ◌-◌, ◌^◌};
ghost use Rattle.vn_rules.specs.Networks.{network_of, directed_broadcast, first_octet, is_no_host, is_loopback, lies_in};

use vn_types::{Ip4, Prefix};

/// How many addresses begin with the same bits, as many as the length says. A length above 32 counts as 32.
fn network_size(len: u8) -> u64
    ensures { result ≡ 2 ^ (32 - len) }
{
    1 << 32u8.saturating_sub(len)
}

/// The address with the bits past the length cleared.
#[tactic(auto, unfolding(crate::specs::Networks::network_of))]
pub fn network_of(ip: Ip4, len: u8) -> Ip4
    ensures { result ≡ network_of ip len }
{
    let size = network_size(len);
    let network = u64::from(ip.0) / size * size;
    Ip4(network as u32)
}

/// The address with the bits past the length set (RFC 1122, section 3.2.1.3).
#[tactic(auto, unfolding(crate::specs::Networks::directed_broadcast))]
pub fn directed_broadcast(ip: Ip4, len: u8) -> Ip4
    ensures { result ≡ directed_broadcast ip len }
{
    let Ip4(network) = network_of(ip, len);
    let last = u64::from(network) + (network_size(len) - 1);
    Ip4(last as u32)
}

/// Whether the address lies in the network.
#[tactic(auto, unfolding(crate::specs::Networks::lies_in))]
pub fn lies_in(ip: Ip4, to: Prefix) -> bool
    ensures { result ≡ lies_in ip to }
{
    network_of(ip, to.len).0 == to.net.0
}

/// Whether no host has the address: it is in `this' network, in the classes D or E, or the limited
/// broadcast address (RFC 1122, section 3.2.1.3).
pub fn is_no_host(ip: Ip4) -> bool
    ensures { result ≡ is_no_host ip }
{
    let octet = first_octet(ip);
    octet == 0 || octet > 223
}

/// Whether the address never leaves its host (RFC 1122, section 3.2.1.3).
pub fn is_loopback(ip: Ip4) -> bool
    ensures { result ≡ is_loopback ip }
{
    first_octet(ip) == 127
}

#[tactic(auto, unfolding(crate::specs::Networks::first_octet))]
fn first_octet(ip: Ip4) -> u8
    ensures { result ≡ first_octet ip }
{
    (ip.0 >> 24) as u8
}
