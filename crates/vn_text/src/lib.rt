//! What a run leaves, written as text: the transcripts of its stacks, the readers and table versions
//! left, and its history.
#![tactic(auto)]

mod command;
mod history;
mod laws;
mod listing;
mod put;
mod report;
mod section;
mod transcript;
mod watch;

pub use command::write_command;
pub use history::write_history;
pub use laws::law_of_reports;
pub use listing::{write_arp_row, write_if_row, write_route_row};
pub use report::{write_report, write_sections};
pub use watch::write_watches;

#[cfg(test)]
mod tests;
