use vn_cells::LaneLine;

/// What a line of a script means.
#[derive(Drop)]
pub(crate) enum Item {
    /// A line of a lane.
    Lane(LaneLine),
    /// The end of a phase.
    Phase,
    /// The end of a phase, and a settling.
    Settle,
    /// The end of a phase, and so many milliseconds.
    Sleep(u64),
}
