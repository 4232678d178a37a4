//! Which Go expressions are of which sort, and that what is accepted is well typed.
//!
//! The rules are definitions in `specs`; `go_types` decides them.
#![tactic(auto)]

pub mod laws;
