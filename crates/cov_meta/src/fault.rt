//! Why a meta file can't be read.
ghost use Rattle.std.specs.Prelude.{◌≡◌};
ghost use Rattle.cov_meta.specs.declared.fault.MetaFault.TheVariants as meta_fault;
ghost use Rattle.cov_meta.specs.Fault.{fault_of, table_fault_of};

use cov_bytes::{CutFault, TableFault, WhichText};
use cov_outside::{DataKind, Which};
use std::alloc::{AllocError, AllocFailed};

/// Why a meta file can't be read.
#[derive(Clone, Copy, Debug, PartialEq, Eq)]
pub enum MetaFault {
    /// What is wrong at an offset, in bytes from 0: that of the first byte of the faulty field.
    At { offset: u64, kind: DataKind },
    /// There is more of something than its limit.
    Limit(Which),
    NoMemory,
}

impl From<CutFault> for MetaFault {
    ghost from_gives = { λ f e. e ≡ fault_of f };

    fn from(f: CutFault) -> MetaFault {
        match f {
            CutFault::Short(at) => MetaFault::At {
                offset: at as u64,
                kind: DataKind::Short,
            },
            CutFault::NumberTooLong(at) => MetaFault::At {
                offset: at as u64,
                kind: DataKind::NumberTooLong,
            },
            CutFault::NumberTooLarge(at) => MetaFault::At {
                offset: at as u64,
                kind: DataKind::NumberTooLarge,
            },
        }
    }
}

impl From<TableFault> for MetaFault {
    ghost from_gives = { λ f e. e ≡ table_fault_of f };

    fn from(f: TableFault) -> MetaFault {
        match f {
            TableFault::Cut(cut) => cut.into(),
            TableFault::Limit(WhichText::Strings) => MetaFault::Limit(Which::Strings),
            TableFault::Limit(WhichText::NameBytes) => MetaFault::Limit(Which::NameBytes),
            TableFault::Limit(WhichText::StringBytes) => MetaFault::Limit(Which::StringBytes),
            TableFault::NoMemory => MetaFault::NoMemory,
        }
    }
}

impl<T: Drop> From<AllocFailed<T>> for MetaFault {
    ghost from_gives = { λ _ e. e ≡ meta_fault.NoMemory };

    fn from(_e: AllocFailed<T>) -> MetaFault {
        MetaFault::NoMemory
    }
}

impl From<AllocError> for MetaFault {
    ghost from_gives = { λ _ e. e ≡ meta_fault.NoMemory };

    fn from(_e: AllocError) -> MetaFault {
        MetaFault::NoMemory
    }
}
