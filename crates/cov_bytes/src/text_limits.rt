//! Limits on tables of texts, and why one can't be read.
ghost use Rattle.std.specs.Prelude.{◌≡◌};
ghost use Rattle.cov_bytes.specs.declared.text_limits.TableFault.TheVariants as table_fault;

use crate::cursor::CutFault;
use std::alloc::{AllocError, AllocFailed};

/// The most that a table may have.
#[derive(Clone, Copy, Debug, PartialEq, Eq)]
pub struct TextLimits {
    /// How many texts.
    pub strings: u64,
    /// How many bytes one text may have.
    pub one: u64,
    /// How many bytes all texts may have together.
    pub all: u64,
}

/// A limit on texts.
#[derive(Clone, Copy, Debug, PartialEq, Eq)]
pub enum WhichText {
    Strings,
    NameBytes,
    StringBytes,
}

/// Why a table can't be read.
#[derive(Clone, Copy, Debug, PartialEq, Eq)]
pub enum TableFault {
    Cut(CutFault),
    Limit(WhichText),
    NoMemory,
}

impl From<CutFault> for TableFault {
    ghost from_gives = { λ f e. e ≡ table_fault.Cut f };

    fn from(f: CutFault) -> TableFault {
        TableFault::Cut(f)
    }
}

impl From<AllocError> for TableFault {
    ghost from_gives = { λ _ e. e ≡ table_fault.NoMemory };

    fn from(_e: AllocError) -> TableFault {
        TableFault::NoMemory
    }
}

impl<T: Drop> From<AllocFailed<T>> for TableFault {
    ghost from_gives = { λ _ e. e ≡ table_fault.NoMemory };

    fn from(_e: AllocFailed<T>) -> TableFault {
        TableFault::NoMemory
    }
}
