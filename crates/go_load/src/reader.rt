//! Reading the tree of one source.
ghost use Rattle.std.specs.Prelude.{◌≡◌, ◌≤◌, ◌^◌, IfErr, length};
ghost use Rattle.go_load.specs.declared.reader.ReadFault.TheVariants as faults;
ghost use Rattle.go_load.specs.Readings.{IsWithin, Reading};

use cov_outside::Which;
use go_ast::{File, SourceKind};
use std::alloc::{AllocError, AllocFailed, Global};

/// Why a source has no tree, or why it wasn't found.
#[derive(Clone, Copy, Debug, PartialEq, Eq)]
pub enum ReadFault {
    /// The first fault of the text, and its offset in bytes from 0.
    At { offset: u32, kind: SourceKind },
    /// The tree passes a limit.
    Limit(Which),
    /// Memory ran out.
    NoMemory,
}

impl From<AllocError> for ReadFault {
    ghost from_gives = { λ _ e. e ≡ faults.NoMemory };

    fn from(_e: AllocError) -> ReadFault {
        ReadFault::NoMemory
    }
}

impl<T: Drop> From<AllocFailed<T>> for ReadFault {
    ghost from_gives = { λ _ e. e ≡ faults.NoMemory };

    fn from(_e: AllocFailed<T>) -> ReadFault {
        ReadFault::NoMemory
    }
}

/// What reads the tree of a source.
pub trait ReadsSource {
    /// Which tree or fault a text has.
    ghost gives: { Self → Reading };

    fn read(&self, alloc: Global, text: &[u8]) -> Result<File, ReadFault>
        requires { length text.now ≤ 2 ^ 31 }
        ensures told { gives self.now text.now result }
        ensures within { IfErr result (λ fault. IsWithin fault (length text.now)) };
}
