//! Why an operation on values gives none.
ghost use Rattle.std.specs.Prelude.{◌≡◌};
ghost use Rattle.go_value.specs.declared.fault.TextFault.TheVariants as text_fault;

use std::alloc::{AllocError, AllocFailed};
use thiserror::Error;

/// Why an operation on integers has no result.
#[derive(Clone, Copy, Debug, PartialEq, Eq, Error)]
pub enum ValueFault {
    #[error("integer divide by zero")]
    DivideByZero,
    #[error("negative shift amount")]
    NegativeShift,
}

/// Why an operation on constants has no result.
#[derive(Clone, Copy, Debug, PartialEq, Eq, Error)]
pub enum ConstFault {
    /// The result leaves signed 128 bits, or a shift count is negative.
    #[error("constant out of range")]
    ConstRange,
    #[error("constant divided by zero")]
    ConstDivide,
}

/// An index is outside a text.
#[derive(Clone, Copy, Debug, PartialEq, Eq)]
pub struct OutOfRange;

/// Why there is no text.
#[derive(Clone, Copy, Debug, PartialEq, Eq)]
pub enum TextFault {
    /// The bounds aren't in order, or not within the text.
    OutOfRange,
    /// The text would have more bytes than `STRING_LIMIT`.
    StringLimit,
    NoMemory,
}

impl From<AllocError> for TextFault {
    ghost from_gives = { λ _ e. e ≡ text_fault.NoMemory };

    fn from(_e: AllocError) -> TextFault {
        TextFault::NoMemory
    }
}

impl<T: Drop> From<AllocFailed<T>> for TextFault {
    ghost from_gives = { λ _ e. e ≡ text_fault.NoMemory };

    fn from(_e: AllocFailed<T>) -> TextFault {
        TextFault::NoMemory
    }
}
