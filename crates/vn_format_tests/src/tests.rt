//! By crate, as the crates are named without `vn_`.

mod cksum;
mod icmpfmt;
mod ip4fmt;
mod link;
mod types;
mod udpfmt;
