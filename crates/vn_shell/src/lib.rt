//! Scripts, histories and sets of cells, as they are read.
#![tactic(auto)]

mod cells;
mod command;
mod event;
mod fault;
mod forms;
mod history;
mod item;
mod laws;
mod lines;
mod parts;
mod request;
mod script;
#[cfg(test)]
mod tests;
mod words;

pub use cells::read_cells;
pub use command::read_command;
pub use history::{HistoryFault, read_history};
pub use laws::{law_of_written_commands, law_of_written_histories};
pub use script::{Reason, ScriptFault, read_script, read_whole_script};
