use crate::event::History;
use crate::listing::IfRow;
use crate::transcript::Entry;
use vn_types::{List, Path};

/// A path's transcript, as it is written.
#[derive(Drop)]
pub struct SectionText {
    pub path: Path,
    pub entries: List<Entry>,
}

/// What a run leaves: its history, the transcripts that are not empty (host first, then by the octets of
/// the paths' texts), the readers that are open at the end and the table versions kept for them.
#[derive(Drop)]
pub struct Report {
    pub history: History,
    pub sections: List<SectionText>,
    pub opened: u64,
    pub kept: u64,
}

/// A listing of a path's interfaces after the first `at` events of the history; no rows where the path
/// was then not alive.
#[derive(Drop)]
pub struct Watch {
    pub lane: u8,
    pub path: Path,
    pub at: u64,
    pub rows: Option<List<IfRow>>,
}
