use vn_types::Ip4;

/// What goes out where a socket sends: an unset source is chosen by output, an unset TTL is the stack's.
#[derive(Clone, Copy)]
pub struct SendPlan {
    pub src: Option<Ip4>,
    pub sport: u16,
    pub dst: Ip4,
    pub dport: u16,
    pub ttl: Option<u8>,
}
