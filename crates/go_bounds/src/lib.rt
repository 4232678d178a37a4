//! What is checked to be a statement of Go uses only what is there: laws over the definitions of checking.
#![tactic(auto)]

pub mod laws;
