//! All tables together: what leaves a stack with an address or with a half, halves that move between
//! stacks, and pairs that end (ifconfig(8), `-alias`, `vnet`, `-vnet`, `destroy`).
#![tactic(auto)]

mod address;
mod counts;
mod ending;
mod moving;
mod purging;
mod tables;
mod tallies;

pub use address::drop_address;
pub use counts::Counts;
pub use ending::destroy_pair;
pub use moving::{lend, reclaim, send_home};
pub use purging::purge;
pub use tables::Tables;
pub use tallies::Tallies;
pub use vn_packets::Tally;
