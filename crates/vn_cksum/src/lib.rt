//! The one's complement sum of 16-bit words, and its laws (RFC 1071, RFC 1624). Each law is the contract
//! of a function that does nothing: to cite it, call it.
#![tactic(auto)]

mod laws;
mod sum;

pub use laws::{
    law_of_carries, law_of_complement, law_of_order, law_of_pieces, law_of_replacement, law_of_zero,
};
pub use sum::{sum16, sum16_parts};
