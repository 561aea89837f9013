use bytes::Bytes;
use vn_types::{IfOf, Ip4};

/// The most octets of a datagram that leaves by a half (RFC 894).
pub const HALF_MTU: usize = 1500;

/// The most octets of a datagram that stays in its stack.
pub const LO0_MTU: usize = 16384;

/// A datagram to be sent (RFC 791).
pub struct Outgoing {
    /// Unset where the stack chooses it: the address of the half by which the datagram leaves, or the destination
    /// itself, where that is the stack's.
    pub src: Option<Ip4>,
    pub dst: Ip4,
    pub proto: u8,
    pub ttl: u8,
    /// What stands behind the header.
    pub body: Bytes,
}

/// How a datagram was sent: from which address, and by which interface.
#[derive(Clone, Copy, PartialEq, Eq)]
pub struct SentOf<N> {
    pub src: Ip4,
    pub out: IfOf<N>,
}
