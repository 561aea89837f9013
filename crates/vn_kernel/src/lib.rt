//! The kernel: jails, transcripts, stacks and pairs by their numbers, and the history that led to them.
//! Each operation is a step of the machine.
#![tactic(auto)]

mod burial;
mod construction;
mod constructors;
mod creation;
mod destruction;
mod ending;
mod events;
mod homecoming;
mod kernel;
mod links;
mod listing;
mod moves;
mod pairs;
mod readers;
mod reading;
mod removal;
mod running;
mod state;
mod tables;
mod transcripts;

pub use kernel::{Kernel, StepFault};
