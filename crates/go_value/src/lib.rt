//! The values of a Go program: integers, texts, and integer constants.
#![tactic(auto)]

mod constant;
mod conversion;
mod fault;
mod int;
mod kind;
mod laws;
mod operation;
mod text;

pub use constant::const_op;
pub use conversion::convert;
pub use fault::{ConstFault, OutOfRange, TextFault, ValueFault};
pub use int::Int;
pub use kind::Kind;
pub use laws::{bit_by_bit, integers_of_kinds, low_bits_lost, quotient_and_remainder};
pub use operation::{IntOp, int_op};
pub use text::{STRING_LIMIT, cut_text, index, join_text};

#[cfg(test)]
mod tests;
