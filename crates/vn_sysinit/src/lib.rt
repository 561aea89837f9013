//! The table of constructors (VNET(9)): what runs when a stack is made, in which order, and in reverse when
//! it is destroyed.
#![tactic(auto)]

mod entry;
mod laws;
mod table;

pub use entry::SysEntry;
pub use laws::law_of_constructor_rows;
pub use table::{RegisterFault, SysTable};
