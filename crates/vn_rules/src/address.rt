ghost use Rattle.std.specs.Prelude.{◌≡◌};
ghost use Rattle.vn_types.specs.Interfaces.{half_id_eq, if_same};
ghost use Rattle.vn_rules.specs.Addresses.{is_half, prefix_of, has_broadcast, has_ip, is_end, is_unfit, is_broadcast_of, is_at, is_same, reaches};

use crate::network::{directed_broadcast, is_loopback, is_no_host, lies_in, network_of};
use vn_types::{HalfId, If, IfOf, Ip4, Prefix, same_interface};

/// An address of an interface, with the length of its prefix in bits (ifconfig(8)).
#[derive(Clone, Copy, PartialEq, Eq)]
pub struct AddrOf<N> {
    pub on: IfOf<N>,
    pub ip: Ip4,
    pub len: u8,
}

/// An address, as the tables name its interface.
pub type Addr = AddrOf<HalfId>;

impl AddrOf<HalfId> {
    /// Whether it is an address of the interface.
    pub fn is_on(self, on: If) -> bool
        ensures { result ≡ if_same half_id_eq self.on on }
    {
        same_interface(self.on, on)
    }

    /// Whether it is that address, on any interface.
    pub fn has_ip(self, ip: Ip4) -> bool
        ensures { result ≡ has_ip ip self }
    {
        self.ip.0 == ip.0
    }

    /// Whether it is that address of the interface.
    pub fn is_at(self, on: If, ip: Ip4) -> bool
        ensures { result ≡ is_at half_id_eq on ip self }
    {
        self.is_on(on) && self.has_ip(ip)
    }

    /// Whether interface, address and length are the same.
    pub fn is_same(self, other: Addr) -> bool
        ensures { result ≡ is_same half_id_eq self other }
    {
        other.is_at(self.on, self.ip) && other.len == self.len
    }

    /// Whether it is an address of the interface whose network has the hop.
    pub fn reaches(self, on: If, hop: Ip4) -> bool
        ensures { result ≡ reaches half_id_eq on hop self }
    {
        self.is_on(on) && lies_in(hop, self.prefix())
    }

    /// The network in which it lies.
    pub fn prefix(self) -> Prefix
        ensures { result ≡ prefix_of self }
    {
        Prefix {
            net: network_of(self.ip, self.len),
            len: self.len,
        }
    }

    /// Whether its interface cannot have it.
    pub fn is_unfit(self) -> bool
        ensures { result ≡ is_unfit self }
    {
        is_no_host(self.ip)
            // RFC 1122, section 3.2.1.3: "Addresses of this form MUST NOT appear outside a host."
            || (is_half(self.on) && is_loopback(self.ip))
            || self.len == 0
            // The same section: "IP addresses are not permitted to have the value 0 or -1" as a host number.
            || (self.has_broadcast() && self.is_end())
    }

    /// Whether it is an address of a half, and this is the broadcast address of its network.
    pub fn is_broadcast_of(self, ip: Ip4) -> bool
        ensures { result ≡ is_broadcast_of ip self }
    {
        is_half(self.on) && self.has_broadcast() && directed_broadcast(self.ip, self.len).0 == ip.0
    }

    /// Whether a broadcast address belongs to its network. A network of 31 bits has two hosts and nothing
    /// else (RFC 3021).
    fn has_broadcast(self) -> bool
        ensures { result ≡ has_broadcast self }
    {
        self.len <= 30
    }

    /// Whether it is the first or the last address of its network.
    fn is_end(self) -> bool
        ensures { result ≡ is_end self }
    {
        self.ip.0 == network_of(self.ip, self.len).0
            || self.ip.0 == directed_broadcast(self.ip, self.len).0
    }
}

fn is_half(on: If) -> bool
    ensures { result ≡ is_half on }
{
    match on {
        If::Lo0 => false,
        If::Half(_) => true,
    }
}
