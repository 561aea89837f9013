//! UDP datagrams (RFC 768): views of octets, and datagrams that are written.
#![tactic(auto)]

mod bad;
mod laws;
mod pseudo;
mod view;
mod write;

pub use bad::UdpBad;
pub use laws::{law_of_headers, law_of_refusal};
pub use view::UdpView;
pub use write::write_udp;
