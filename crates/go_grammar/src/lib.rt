//! The grammar of the Go subset: which tokens spell which tree, and which token is the first that none can have.
//!
//! The definitions stand in `specs`; `go_parse` finds what they say.
#![tactic(auto)]

mod form;
pub mod laws;

pub use form::{CounterForm, Form};
