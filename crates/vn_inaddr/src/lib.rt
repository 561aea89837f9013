//! The addresses of interfaces (ifconfig(8)). Each stack has addresses of its own, in order of adding.
#![tactic(auto)]

mod addresses;
mod addrs;

pub use addrs::Addrs;
pub use vn_rules::Addr;
