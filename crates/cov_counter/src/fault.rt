//! Why a counter file can't be read.
ghost use Rattle.std.specs.Prelude.{◌≡◌};
ghost use Rattle.cov_counter.specs.declared.fault.CounterFault.TheVariants as faults;

use cov_outside::{DataKind, Failed, Which};
use std::alloc::{AllocError, AllocFailed};

/// Why a counter file, or a part of it, isn't read. Offsets count bytes of the file from 0.
#[derive(Clone, Copy, Debug, PartialEq, Eq)]
pub enum CounterFault {
    /// The bytes break a rule of the format.
    At { offset: u64, kind: DataKind },
    /// A limit would be passed.
    Limit(Which),
    /// There is no such file.
    Missing,
    /// A read failed.
    Read,
    /// Memory ran out.
    NoMemory,
}

impl From<Failed> for CounterFault {
    ghost from_gives = { λ _ e. e ≡ faults.Read };

    fn from(_e: Failed) -> CounterFault {
        CounterFault::Read
    }
}

impl From<AllocError> for CounterFault {
    ghost from_gives = { λ _ e. e ≡ faults.NoMemory };

    fn from(_e: AllocError) -> CounterFault {
        CounterFault::NoMemory
    }
}

impl<T: Drop> From<AllocFailed<T>> for CounterFault {
    ghost from_gives = { λ _ e. e ≡ faults.NoMemory };

    fn from(_e: AllocFailed<T>) -> CounterFault {
        CounterFault::NoMemory
    }
}

/// The fault of a rule that is broken at an offset.
pub fn at(offset: usize, kind: DataKind) -> CounterFault
    ensures { result ≡ CounterFault.At offset kind }
{
    CounterFault::At {
        offset: offset as u64,
        kind,
    }
}
