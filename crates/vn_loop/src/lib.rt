//! The loopback queues: the datagrams that are on their way through lo0 (lo(4)). Each stack has a queue
//! of its own.
#![tactic(auto)]

mod loopback;
mod loops;
mod queue;

pub use loops::Loops;
