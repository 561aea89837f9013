//! The laws of the machine. Each law is the contract of a function that does nothing: to cite it,
//! call it.
#![tactic(auto)]

mod isolation;
mod locality;
mod reaching;
mod readers;
mod removal;
mod rows;
mod runs;
mod soundness;

pub use isolation::{law_of_isolation, law_of_local_rules, law_of_whole_projection};
pub use locality::law_of_locality;
pub use reaching::law_of_pairs;
pub use readers::{
    law_of_counted_versions, law_of_kept_versions, law_of_reader_lines, law_of_unread_histories,
};
pub use removal::{law_of_lowest_unit, law_of_removal};
pub use rows::{
    law_of_closed_rows, law_of_worked_pairs, law_of_worked_readers, law_of_worked_rows,
};
pub use runs::{
    law_of_falling_weight, law_of_growth, law_of_schedules, law_of_settling, law_of_sleep,
};
pub use soundness::{law_of_clean_histories, law_of_sound_steps};
