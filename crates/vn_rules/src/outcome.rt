use vn_types::{Errno, Octets};

/// What a command or a reader's event was answered.
#[derive(Drop)]
pub enum Outcome {
    Done,
    Refused(Errno),
    /// A text without a line end.
    Value(Octets),
}
