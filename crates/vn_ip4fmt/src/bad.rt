/// Why octets are no IPv4 datagram, in the order of the tests.
#[derive(Clone, Copy, PartialEq, Eq)]
pub enum IpBad {
    /// Fewer octets than a header without options has.
    Short,
    Version,
    /// A header that is shorter than its fields, or longer than the octets.
    HeaderLen,
    Checksum,
    /// A datagram that is shorter than its header, or longer than the octets.
    TotalLen,
}
