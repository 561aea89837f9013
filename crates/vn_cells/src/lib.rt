//! The data of scripts, events and transcripts, and the machine: the state and the step that every
//! theorem speaks of.
#![tactic(auto)]

mod bounds;
mod cell;
mod command;
mod event;
mod listing;
mod report;
mod script;
mod transcript;
mod world;

pub use cell::{CellName, Cells};
pub use command::{Command, Payload};
pub use event::{EVENTS_MAX, Event, History};
pub use listing::{ArpRow, IfRow, RouteRow, RowTarget, Rows, Table};
pub use report::{Report, SectionText, Watch};
pub use script::{LaneLine, Line, Part, Script};
pub use transcript::{Entry, What};
pub use vn_rules::{ArpState, Outcome};
pub use world::{Children, End, Live, Pair, Reader, Stack, World};
