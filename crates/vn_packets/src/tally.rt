/// Why something was dropped (netstat(1), `-s`).
#[derive(Clone, Copy, PartialEq, Eq)]
pub enum Tally {
    Link,
    Arp,
    Ip,
    Icmp,
    Udp,
    /// Lost at a full queue.
    Full,
}
