//! How the tokens of a Go source are read from left to right, and that this finds the tree or the first fault.
//!
//! The readers are definitions in `specs`; `go_parse` computes them.
#![tactic(auto)]

mod fault;
mod header;
pub mod laws;
mod lead;
mod qualified;
mod sign;

pub use fault::{Fault, ParseError};
pub use header::{Braced, Else, ForHead, Header};
pub use lead::Lead;
pub use qualified::Qualified;
pub use sign::Sign;
