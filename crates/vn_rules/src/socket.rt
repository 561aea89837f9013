use bytes::Bytes;
use vn_types::{HalfId, IfOf, Ip4, List, SockName};

/// The most datagrams that a socket keeps.
pub const RECEIVED_MAX: usize = 32;

/// A datagram that a socket has received (RFC 768), with the interface by which it came.
#[derive(Drop)]
pub struct GramOf<N> {
    pub src: Ip4,
    pub sport: u16,
    pub octets: Bytes,
    pub via: IfOf<N>,
}

/// A received datagram, as the tables name its interface.
pub type Gram = GramOf<HalfId>;

/// The address and port that a socket is connected to.
#[derive(Clone, Copy, PartialEq, Eq)]
pub struct Peer {
    pub ip: Ip4,
    pub port: u16,
}

/// An open UDP socket (udp(4)).
pub struct SocketOf<N> {
    pub name: SockName,
    /// Unset where the socket has no local address.
    pub ip: Option<Ip4>,
    /// Unset where the socket has no local port.
    pub port: Option<u16>,
    pub peer: Option<Peer>,
    /// The TTL of what it sends, where it was set.
    pub ttl: Option<u8>,
    /// Whether ECONNREFUSED is pending.
    pub refused: bool,
    /// The received datagrams, oldest first.
    pub queue: List<GramOf<N>>,
}
