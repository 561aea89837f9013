use vn_types::Ip4;

/// What a datagram that came tells of an awaited ping (ping(8)).
#[derive(Clone, Copy, PartialEq, Eq)]
pub enum Heard {
    Nothing,
    /// Its reply came; the octets are those of the ICMP message.
    Pong {
        from: Ip4,
        id: u16,
        ttl: u8,
        bytes: u16,
    },
    /// An ICMP error about it came (RFC 792).
    Fault {
        kind: u8,
        code: u8,
        from: Ip4,
        id: u16,
    },
}
