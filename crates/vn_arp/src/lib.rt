//! The ARP entries of all stacks (RFC 826, arp(4)), with the datagrams that wait for them. The timers of the
//! entries stand on the wheel that is handed in.
#![tactic(auto)]

mod answers;
mod change;
mod gone;
mod listing;
mod lookups;
mod neighbour;
mod neighbours;
mod packets;
mod resolution;
mod table;
mod timers;
mod times;

pub use answers::{Learned, Resolved, Turn};
pub use packets::Packets;
pub use table::ArpTable;
