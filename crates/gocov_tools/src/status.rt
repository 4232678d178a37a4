//! What a command answers.
ghost use Rattle.std.specs.Prelude.{◌≡◌};

use cov_outside::{DataKind, Mode, Text, Which};
use go_ast::{Place, SourceKind};

/// The answer of a command.
#[derive(Debug, Drop)]
pub enum Status {
    /// The command did its whole work.
    Done(u8),
    /// What was asked for isn't built yet.
    NotBuilt,
    /// The word with this index, from 0, is wrong, or one is missing there.
    Usage(usize),
    /// The first fault of a source file, and where it stands.
    Source {
        path: Text,
        place: Place,
        kind: SourceKind,
    },
    /// There is no file at the path.
    Missing {
        path: Text,
    },
    /// The first fault of a data file, and at which byte, from 0.
    Data {
        path: Text,
        offset: u64,
        kind: DataKind,
    },
    /// The first meta file, and the first one in another mode.
    ModeClash {
        first: Text,
        first_mode: Mode,
        second: Text,
        second_mode: Mode,
    },
    /// A counted quantity passes its limit.
    InputLimit(Which),
    ReadFault,
    WriteFault,
    NoMemory,
}

impl Status {
    ghost use Rattle.gocov_tools.specs.Line.{code_of};

    /// The exit status of the program.
    pub fn code(&self) -> u8
        ensures { result ≡ code_of self.now }
    {
        match self {
            Status::Done(code) => *code,
            Status::Source { .. }
            | Status::Missing { .. }
            | Status::Data { .. }
            | Status::ModeClash { .. }
            | Status::InputLimit(_) => 1,
            Status::Usage(_) => 2,
            Status::NotBuilt => 3,
            Status::ReadFault | Status::WriteFault => 4,
            Status::NoMemory => 5,
        }
    }
}
