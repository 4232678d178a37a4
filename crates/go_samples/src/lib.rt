//! Small programs made by hand, for tests and benchmarks.
#![tactic(auto)]

mod parts;
mod programs;

pub use programs::{counting, doubling, sending, spinning, turning, working};
