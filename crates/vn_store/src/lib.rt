//! The declared variables (sysctl(8), VNET(9)): each stack has values of its own.
#![tactic(auto)]

mod fault;
mod instances;
mod registry;
mod values;

pub use fault::{DeclareFault, SetFault, Unknown};
pub use registry::Registry;
