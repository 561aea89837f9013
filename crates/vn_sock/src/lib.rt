//! The open UDP sockets of all stacks (udp(4)): names, ports, peers, and what was received.
#![tactic(auto)]

mod law;
mod name_index;
mod plan;
mod port_index;
mod queue;
mod socket;
mod sockets;
mod socks;

pub use law::law_of_one_socket;
pub use plan::SendPlan;
pub use socks::Socks;
pub use vn_rules::{Gram, Peer, RECEIVED_MAX};
