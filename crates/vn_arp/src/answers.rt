use crate::packets::Packets;
use bytes::Bytes;
use vn_types::Mac;

/// What becomes of a datagram to a neighbour.
#[derive(Drop)]
pub enum Resolved {
    /// It is to be sent to the hardware address.
    Hit { mac: Mac, packet: Bytes },
    /// It waits: whether a request is to be sent, and whether the oldest that waited was dropped for it.
    Held { ask: bool, dropped: bool },
    /// The neighbour does not reply.
    Down(Bytes),
}

/// What follows from an ARP packet.
#[derive(Drop)]
pub struct Learned {
    /// The datagrams that waited for its sender, to be sent now.
    pub release: Packets,
    /// Whether a reply is to be sent.
    pub reply: bool,
}

/// What an entry's timer does.
#[derive(Clone, Copy, PartialEq, Eq)]
pub enum Turn {
    /// Another request is to be sent.
    Ask,
    /// The neighbour does not reply: so many datagrams wait no more.
    WentDown { dropped: u64 },
    /// The entry is removed.
    Removed,
}
