//! The rules of packets near one stack (RFC 768, 791, 792, 826): what is sent and received over its
//! scene, generic in the name of a half.
#![tactic(auto)]

mod heard;
mod laws;
mod outgoing;
mod tally;

pub use heard::Heard;
pub use laws::{
    law_of_counters, law_of_falling_weight, law_of_names, law_of_sound_packets,
    law_of_worked_octets,
};
pub use outgoing::{HALF_MTU, LO0_MTU, Outgoing, SentOf};
pub use tally::Tally;
