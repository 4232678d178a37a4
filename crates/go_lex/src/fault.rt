//! Why lexing gives no tokens.
ghost use Rattle.std.specs.Prelude.{◌≡◌};
ghost use Rattle.go_lex.specs.declared.fault.LexFault.TheVariants as lex_fault;

use go_ast::LexKind;
use std::alloc::{AllocError, AllocFailed};

/// Why a text has no tokens, or why they weren't found.
#[derive(Clone, Copy, Debug, PartialEq, Eq)]
pub enum LexFault {
    /// The first fault of the text, and its offset in bytes from 0.
    At { offset: u32, kind: LexKind },
    /// Memory ran out.
    NoMemory,
}

impl From<AllocError> for LexFault {
    ghost from_gives = { λ _ e. e ≡ lex_fault.NoMemory };

    fn from(_e: AllocError) -> LexFault {
        LexFault::NoMemory
    }
}

impl<T: Drop> From<AllocFailed<T>> for LexFault {
    ghost from_gives = { λ _ e. e ≡ lex_fault.NoMemory };

    fn from(_e: AllocFailed<T>) -> LexFault {
        LexFault::NoMemory
    }
}
