use crate::address::AddrOf;
use crate::arp::ArpEntryOf;
use crate::ping::PingsOf;
use crate::route::TargetOf;
use crate::socket::SocketOf;
use crate::timer::TimersOf;
use crate::variable::Variable;
use bytes::Bytes;
use vn_types::{IfOf, List, Prefix};

/// The most datagrams that are on their way through lo0 at a time.
pub const LOOPBACK_MAX: usize = 256;

/// The most frames that wait in each of the two queues of a pair.
pub const SENT_MAX: usize = 128;

/// How many frames, packets and datagrams a stack dropped, by cause (netstat(1), `-s`).
#[derive(Clone, Copy, PartialEq, Eq)]
pub struct Drops {
    pub link: u64,
    pub arp: u64,
    pub ip: u64,
    pub icmp: u64,
    pub udp: u64,
    /// Lost at a full queue.
    pub full: u64,
}

/// All that a living stack keeps, but its place among the jails.
pub struct PartsOf<N> {
    /// The declared variables, in order of declaration.
    pub variables: List<Variable>,
    /// In order of attachment.
    pub interfaces: List<IfOf<N>>,
    /// In order of adding.
    pub addresses: List<AddrOf<N>>,
    /// By network, then by length; no prefix stands twice.
    pub routes: List<(Prefix, TargetOf<N>)>,
    /// In order of making.
    pub arp: List<ArpEntryOf<N>>,
    /// In order of opening.
    pub sockets: List<SocketOf<N>>,
    pub timers: TimersOf<N>,
    /// The datagrams on their way through lo0, oldest first.
    pub loopback: List<Bytes>,
    pub pings: PingsOf<N>,
    /// The identification of the next datagram (RFC 791, section 3.1).
    pub ident: u16,
    pub drops: Drops,
}
