//! The interfaces of each stack under their names, in order of attachment, and the names that are reserved
//! (ifconfig(8), VNET(9)).
#![tactic(auto)]

mod if_table;
mod interfaces;

pub use if_table::IfTable;
pub use interfaces::{Attached, if_number};
