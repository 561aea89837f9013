use bytes::Bytes;
use vn_types::{HalfId, Ip4, List, Mac};

/// The most datagrams that an incomplete entry holds.
pub const HELD_MAX: usize = 16;

/// The most requests that are sent for an incomplete entry.
pub const REQUESTS_MAX: u8 = 5;

/// How far the resolution of an address has come (arp(4)).
#[derive(Clone, Copy, PartialEq, Eq)]
pub enum ArpState {
    /// Requests were sent, and no reply came yet.
    Incomplete,
    /// A reply or a request of the neighbour told the hardware address.
    Learnt,
    /// The hardware address was set by hand.
    Static,
    /// No reply came to any request.
    Down,
}

/// What a stack knows of a neighbour's address on one half (RFC 826), with the datagrams that wait for it.
pub struct ArpEntryOf<N> {
    pub half: N,
    pub ip: Ip4,
    pub state: ArpState,
    /// Set where the state is learnt or static.
    pub mac: Option<Mac>,
    /// The requests sent so far for an incomplete entry.
    pub requests: u8,
    /// The datagrams held for an incomplete entry, oldest first.
    pub held: List<Bytes>,
}

/// An entry, as the tables name its half.
pub type ArpEntry = ArpEntryOf<HalfId>;
