//! The tree of jails: which live, their limits, and the order of their removal (jail(8), "Hierarchical Jails").
#![tactic(auto)]

mod counting;
mod jail;
mod jails;
mod order;

pub use jails::Jails;
