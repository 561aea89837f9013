//! Ethernet frames and ARP packets, read and written (RFC 894, RFC 826).
#![tactic(auto)]

mod arp;
mod ethernet;
mod laws;
mod mac;

pub use arp::{ArpBad, ArpPacket};
pub use ethernet::{EthBad, EthView, write_eth};
pub use laws::{law_of_headers, law_of_refusal};
