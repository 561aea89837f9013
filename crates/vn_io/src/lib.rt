//! Sources of octets, and sinks for them, with a count of their failures.
#![tactic(auto)]

mod adapters;
mod calm;
mod failures;
mod memory;
mod outside;
mod whole;

pub use adapters::{ReadSource, WriteSink};
pub use calm::{CalmSink, CalmSource};
pub use memory::{MemSink, MemSource};
pub use outside::{Io, Sink, Source};
pub use whole::{ReadError, WriteError, read_to_end, write_all};

#[cfg(test)]
mod tests;
