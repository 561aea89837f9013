ghost use Rattle.std.specs.Prelude.{◌≡◌};
ghost use Rattle.std.specs.List.{list_all};
ghost use Rattle.vn_cells.specs.machine.Bounds.{is_ifname, is_ip, is_mac, is_octet, is_port, is_prefix, is_ttl, is_unit, is_value, is_wait};

use vn_rules::lies_in;
use vn_types::{IfName, Ip4, Mac, Prefix};

/// Whether a prefix is a network's: whether no bit past its length is set.
pub(crate) fn is_prefix(to: Prefix) -> bool
    ensures { result ≡ is_prefix to }
{
    is_ip(to.net) && to.len <= 32 && lies_in(to.net, to)
}

/// Whether a datagram may leave with this time to live.
pub(crate) fn is_ttl(ttl: u8) -> bool
    ensures { result ≡ is_ttl ttl }
{
    1 <= ttl
}

/// Whether a clock may move on by so many milliseconds at once.
pub(crate) fn is_wait(milliseconds: u64) -> bool
    ensures { result ≡ is_wait milliseconds }
{
    1 <= milliseconds && milliseconds <= 86_400_000
}

/// Whether an interface can have the name.
pub(crate) fn is_ifname(name: IfName) -> bool
    ensures { result ≡ is_ifname name }
{
    match name {
        IfName::Lo0 => true,
        IfName::Epair { unit, side: _ } => is_unit(unit),
    }
}

// Each value of the following types is within its bounds.

pub(crate) fn is_unit(unit: u32) -> bool
    ensures { result ≡ is_unit unit }
{
    unit <= u32::MAX
}

pub(crate) fn is_port(port: u16) -> bool
    ensures { result ≡ is_port port }
{
    port <= u16::MAX
}

pub(crate) fn is_value(value: u64) -> bool
    ensures { result ≡ is_value value }
{
    value <= u64::MAX
}

pub(crate) fn is_ip(ip: Ip4) -> bool
    ensures { result ≡ is_ip ip }
{
    ip.0 <= u32::MAX
}

pub(crate) fn is_mac(mac: Mac) -> bool
    ensures { result ≡ is_mac mac }
{
    is_octets(&mac.0)
}

pub(crate) fn is_octets(octets: &[u8]) -> bool
    ensures { result ≡ list_all is_octet octets.now }
{
    octets.iter().all(|octet| *octet <= u8::MAX)
}
