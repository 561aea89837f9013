use crate::errno::Errno;
use std::alloc::{AllocError, AllocFailed};

/// Want of memory, and nothing else.
#[derive(Drop)]
pub struct NoMemory;

/// The answer of a call that may be refused by an errno, and may find no memory.
pub type Reply<T> = Result<Result<T, Errno>, NoMemory>;

impl From<AllocError> for NoMemory {
    ghost use Rattle.std.specs.Prelude.{◌≡◌};

    ghost from_gives = { λ _ e. e ≡ record {} };

    fn from(_error: AllocError) -> NoMemory {
        NoMemory
    }
}

impl<T: Drop> From<AllocFailed<T>> for NoMemory {
    ghost use Rattle.std.specs.Prelude.{◌≡◌};

    ghost from_gives = { λ _ e. e ≡ record {} };

    fn from(_error: AllocFailed<T>) -> NoMemory {
        NoMemory
    }
}
