//! Why words have no meaning.
ghost use Rattle.std.specs.Prelude.{◌≡◌};
ghost use Rattle.gocov_words.specs.declared.fault.WordsFault.TheVariants as words_fault;

use cov_outside::Which;
use std::alloc::{AllocError, AllocFailed};

/// Why words name no command.
#[derive(Clone, Copy, Debug, PartialEq, Eq)]
pub enum WordsFault {
    /// The index of the word, from 0, that is unknown, has a bad value or is one too many; the number of words where
    /// something is missing.
    Usage(usize),
    /// More than this many directories.
    Limit(Which),
    NoMemory,
}

impl From<AllocError> for WordsFault {
    ghost from_gives = { λ _ e. e ≡ words_fault.NoMemory };

    fn from(_e: AllocError) -> WordsFault {
        WordsFault::NoMemory
    }
}

impl<T: Drop> From<AllocFailed<T>> for WordsFault {
    ghost from_gives = { λ _ e. e ≡ words_fault.NoMemory };

    fn from(_e: AllocFailed<T>) -> WordsFault {
        WordsFault::NoMemory
    }
}
