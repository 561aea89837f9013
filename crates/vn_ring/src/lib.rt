//! A bounded queue of frames.
#![tactic(auto)]

mod ring;

pub use ring::FrameRing;
