//! ICMP messages, and what errors quote, read and written (RFC 792).
#![tactic(auto)]

mod laws;
mod message;
mod quote;
mod sum;
mod write;

pub use laws::law_of_refusal;
pub use message::{IcmpBad, IcmpView};
pub use quote::{Quote, read_quote};
pub use write::{write_echo, write_error};
