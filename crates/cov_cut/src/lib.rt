//! Cuts the functions of a file into units.
#![tactic(auto)]

mod breakers;
mod counters;
mod else_if;
mod file;
mod frame;
pub mod laws;
mod owners;
mod program;
mod segment;
mod statement;
mod unit;
mod walk;

pub use else_if::else_ifs;
pub use file::cut;
pub use program::with_counts;
pub use unit::{FuncUnits, Unit};

#[cfg(test)]
mod tests;
