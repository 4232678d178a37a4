//! Faults of the outside, and want of memory.
ghost use Rattle.std.specs.Prelude.{◌≡◌};
ghost use Rattle.cov_outside.specs.declared.fault.FilesFault.TheVariants as files_fault;

use std::alloc::{AllocError, AllocFailed};

/// Memory ran out.
pub type NoMemory = AllocError;

/// A call of the outside failed.
#[derive(Clone, Copy, Debug, PartialEq, Eq)]
pub struct Failed;

/// Why a call of the outside gave no answer.
#[derive(Clone, Copy, Debug, PartialEq, Eq)]
pub enum FilesFault {
    Failed,
    NoMemory,
}

impl From<AllocError> for FilesFault {
    ghost from_gives = { λ _ e. e ≡ files_fault.NoMemory };

    fn from(_e: AllocError) -> FilesFault {
        FilesFault::NoMemory
    }
}

impl<T: Drop> From<AllocFailed<T>> for FilesFault {
    ghost from_gives = { λ _ e. e ≡ files_fault.NoMemory };

    fn from(_e: AllocFailed<T>) -> FilesFault {
        FilesFault::NoMemory
    }
}

impl From<Failed> for FilesFault {
    ghost from_gives = { λ _ e. e ≡ files_fault.Failed };

    fn from(_e: Failed) -> FilesFault {
        FilesFault::Failed
    }
}
