//! Why a command did nothing.
ghost use Rattle.std.specs.Prelude.{◌≡◌};
ghost use Rattle.gocov_tools.specs.declared.refusal.Refusal.TheVariants as refusal;
ghost use Rattle.gocov_tools.specs.Refusals.{answer_of};

use crate::status::Status;
use cov_outside::{DataKind, FilesFault, Mode, Text, Which};
use go_ast::{Place, SourceKind};
use std::alloc::{AllocError, AllocFailed};

/// The first refusal of a command.
#[derive(Debug, Drop)]
pub enum Refusal {
    NotBuilt,
    Usage(usize),
    Source {
        path: Text,
        place: Place,
        kind: SourceKind,
    },
    Missing {
        path: Text,
    },
    Data {
        path: Text,
        offset: u64,
        kind: DataKind,
    },
    ModeClash {
        first: Text,
        first_mode: Mode,
        second: Text,
        second_mode: Mode,
    },
    Limit(Which),
    Read,
    NoMemory,
}

impl From<AllocError> for Refusal {
    ghost from_gives = { λ _ e. e ≡ refusal.NoMemory };

    fn from(_e: AllocError) -> Refusal {
        Refusal::NoMemory
    }
}

impl<T: Drop> From<AllocFailed<T>> for Refusal {
    ghost from_gives = { λ _ e. e ≡ refusal.NoMemory };

    fn from(_e: AllocFailed<T>) -> Refusal {
        Refusal::NoMemory
    }
}

/// Of a listing.
impl From<FilesFault> for Refusal {
    ghost use Rattle.gocov_tools.specs.Refusals.{of_files};

    ghost from_gives = { λ f e. e ≡ of_files f };

    fn from(f: FilesFault) -> Refusal {
        match f {
            FilesFault::Failed => Refusal::Read,
            FilesFault::NoMemory => Refusal::NoMemory,
        }
    }
}

/// The answer of a refused command.
pub fn status_of(refusal: Refusal) -> Status
    ensures { result ≡ answer_of refusal }
{
    match refusal {
        Refusal::NotBuilt => Status::NotBuilt,
        Refusal::Usage(word) => Status::Usage(word),
        Refusal::Source { path, place, kind } => Status::Source { path, place, kind },
        Refusal::Missing { path } => Status::Missing { path },
        Refusal::Data { path, offset, kind } => Status::Data { path, offset, kind },
        Refusal::ModeClash {
            first,
            first_mode,
            second,
            second_mode,
        } => Status::ModeClash {
            first,
            first_mode,
            second,
            second_mode,
        },
        Refusal::Limit(which) => Status::InputLimit(which),
        Refusal::Read => Status::ReadFault,
        Refusal::NoMemory => Status::NoMemory,
    }
}
