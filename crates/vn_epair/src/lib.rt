//! Pairs of halves, each with a queue each way (epair(4)).
#![tactic(auto)]

mod half_row;
mod line;
mod name_index;
mod pair_row;
mod pairs;

pub use half_row::FRAMES_MAX;
pub use pair_row::UNIT_MAX;
pub use pairs::Pairs;
