//! Why a reader gives no value.
ghost use Rattle.std.specs.Prelude.{◌≡◌};
ghost use Rattle.go_reading.specs.declared.fault.ParseError.TheVariants as parse_error;

use std::alloc::{AllocError, AllocFailed};

/// Why the tokens from the cursor on aren't read. The cursor stands at the token of the fault.
#[derive(Clone, Copy, Debug, PartialEq, Eq)]
pub enum Fault {
    /// No text begins with the tokens up to this one.
    Unexpected,
    /// No tree of such a text keeps the limit of depth.
    TooDeep,
    /// No `select` of such a text keeps the limit of clauses.
    TooMany,
    /// A loop has no turns left, which is never so with as many turns as tokens and one.
    Exhausted,
}

/// A fault, or want of memory.
#[derive(Clone, Copy, Debug, PartialEq, Eq)]
pub enum ParseError {
    Memory,
    Fault(Fault),
}

impl From<AllocError> for ParseError {
    ghost from_gives = { λ _ e. e ≡ parse_error.Memory };

    fn from(_: AllocError) -> ParseError {
        ParseError::Memory
    }
}

impl<T: Drop> From<AllocFailed<T>> for ParseError {
    ghost from_gives = { λ _ e. e ≡ parse_error.Memory };

    fn from(_: AllocFailed<T>) -> ParseError {
        ParseError::Memory
    }
}
