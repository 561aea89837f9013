/// Why octets are no UDP datagram, in the order of the tests.
#[derive(Clone, Copy, PartialEq, Eq)]
pub enum UdpBad {
    /// Fewer octets than a header has.
    Short,
    /// A length that is less than the header's, or more than the octets.
    Length,
    Checksum,
    /// The destination port 0.
    Port,
}
