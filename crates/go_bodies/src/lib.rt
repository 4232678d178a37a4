//! Checks the bodies of functions of Go source.
#![tactic(auto)]

mod func;
mod lists;
mod parts;
mod placing;
mod stmt;

pub use func::function;
