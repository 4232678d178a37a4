//! Covered texts by their tokens.
#![tactic(auto)]

pub mod laws;
