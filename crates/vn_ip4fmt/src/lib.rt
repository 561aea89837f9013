//! IPv4 datagrams (RFC 791): views of octets, headers that are written, and the TTL of a datagram that is
//! forwarded.
#![tactic(auto)]

mod bad;
mod checksum;
mod head;
mod laws;
mod place;
mod ttl;
mod view;
mod write;

pub use bad::IpBad;
pub use head::Ip4Head;
pub use laws::{law_of_headers, law_of_refusal};
pub use ttl::decrement;
pub use view::Ip4View;
pub use write::write_header;
