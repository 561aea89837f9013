use vn_types::Ip4;

/// The fields of an IPv4 header but its version, its lengths, its reserved flag and its checksum.
#[derive(Clone, Copy, PartialEq, Eq)]
pub struct Ip4Head {
    pub tos: u8,
    pub id: u16,
    /// Don't fragment.
    pub df: bool,
    /// More fragments.
    pub mf: bool,
    /// The fragment's place in units of 8 octets, below 8,192.
    pub offset: u16,
    pub ttl: u8,
    pub proto: u8,
    pub src: Ip4,
    pub dst: Ip4,
}
