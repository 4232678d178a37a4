//! Where the tokens and faults of a source stand.
#![tactic(auto)]

pub mod laws;
