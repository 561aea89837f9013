//! The tests of the crates that keep the tables of the stacks. They stand apart, since a crate with tests is
//! proved twice.
#![tactic(auto)]

#[cfg(test)]
mod tests;
