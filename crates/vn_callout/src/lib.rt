//! The timers of all stacks (callout(9)). Each stack has timers and arm numbers of its own.
#![tactic(auto)]

mod calls;
mod timers;
mod wheel;

pub use calls::{Call, Reply, replies};
pub use vn_rules::Timer;
pub use wheel::Wheel;
