//! The tests of the crates that read and write words, sums, frames and datagrams. They stand apart, since a
//! crate with tests is proved twice.
#![tactic(auto)]

#[cfg(test)]
mod tests;
