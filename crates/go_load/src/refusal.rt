//! Why a module isn't loaded.
ghost use Rattle.std.specs.Prelude.{◌≡◌};
ghost use Rattle.go_load.specs.declared.refusal.LoadRefusal.TheVariants as refusals;
ghost use Rattle.go_load.specs.Refusals.{of_files};

use cov_outside::{FilesFault, Sequence, Which};
use go_ast::{Place, SourceKind, Text};
use std::alloc::{AllocError, AllocFailed};

/// What is wrong with a module, apart from its sources. Beside each stands the path that is named with it.
#[derive(Debug, Drop)]
pub enum LoadKind {
    /// `go.mod` isn't of its form: its path.
    BadModule,
    /// Packages import each other in a circle. The cycle starts at its least path, and each package is followed by one that it
    /// imports; of several it is the least list. Its first path.
    Cycle(Sequence<Text>),
    /// An import of no package that there may be: the import path.
    UnknownImport,
    /// No source file in the directory of a package: the directory.
    NoSource,
    /// Two package names in one directory: the directory.
    TwoPackages,
    /// The package in the module's directory isn't `main`: the directory.
    NoMain,
    /// Another package is named `main`: its import path.
    ImportsMain,
}

/// Why a module isn't loaded.
#[derive(Debug, Drop)]
pub enum LoadRefusal {
    Load {
        path: Text,
        kind: LoadKind,
    },
    /// The first fault of a source file.
    Source {
        path: Text,
        place: Place,
        kind: SourceKind,
    },
    /// There is no such file.
    Missing {
        path: Text,
    },
    /// A source is too long or its tree too deep, or there are too many packages.
    Limit(Which),
    /// Reading or listing failed.
    Read,
    NoMemory,
}

impl From<AllocError> for LoadRefusal {
    ghost from_gives = { λ _ e. e ≡ refusals.NoMemory };

    fn from(_e: AllocError) -> LoadRefusal {
        LoadRefusal::NoMemory
    }
}

impl<T: Drop> From<AllocFailed<T>> for LoadRefusal {
    ghost from_gives = { λ _ e. e ≡ refusals.NoMemory };

    fn from(_e: AllocFailed<T>) -> LoadRefusal {
        LoadRefusal::NoMemory
    }
}

impl From<FilesFault> for LoadRefusal {
    ghost from_gives = { λ fault e. e ≡ of_files fault };

    fn from(fault: FilesFault) -> LoadRefusal {
        match fault {
            FilesFault::Failed => LoadRefusal::Read,
            FilesFault::NoMemory => LoadRefusal::NoMemory,
        }
    }
}
