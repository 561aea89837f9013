//! The awaited pings of all stacks (ping(8)), and which datagrams no ICMP error is sent about. Each stack
//! counts identifiers of its own.
#![tactic(auto)]

mod awaited;
mod pings;
mod suppression;
mod timers;
mod which;

pub use pings::Pings;
pub use suppression::may_answer;
pub use vn_rules::Ping;
