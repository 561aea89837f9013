//! The packets of one stack over all tables: what its halves send, and the ARP packets that come to them
//! (RFC 826, RFC 894, ifconfig(8)).
#![tactic(auto)]

mod announcing;
mod links;
mod resolving;
mod sending;

pub use announcing::announce;
pub use links::{come_up, go_down};
pub use resolving::input_arp;
