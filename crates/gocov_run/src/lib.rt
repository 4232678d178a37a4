//! Running modules: a module in a directory is loaded, checked and run in the serial schedule.
#![tactic(auto)]

mod checking;
mod ends;
mod files;
mod ran;
mod running;
#[cfg(test)]
mod tests;
mod units;

pub use ran::Ran;
pub use running::run_module;
