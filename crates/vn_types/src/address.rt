/// An IPv4 address as a number, its first octet highest (RFC 791, section 3.2).
#[derive(Clone, Copy, PartialEq, Eq, PartialOrd, Ord)]
pub struct Ip4(pub u32);

/// An Ethernet hardware address, in the order of transmission (RFC 894).
#[derive(Clone, Copy, PartialEq, Eq)]
pub struct Mac(pub [u8; 6]);

/// An address with a length of 0 to 32 bits. Where it means a network, the bits past the length
/// are 0.
#[derive(Clone, Copy, PartialEq, Eq)]
pub struct Prefix {
    pub net: Ip4,
    pub len: u8,
}
