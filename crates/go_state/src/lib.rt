//! Runs of Go programs: a configuration together with the history that leads to it, and the run of the serial schedule.
#![tactic(auto)]

mod ends;
pub mod laws;
mod limits;
mod passing;
mod run;
mod schedule;
#[cfg(test)]
mod tests;
mod turns;

pub use go_step::StepRefusal;
pub use limits::Limits;
pub use run::Run;
pub use schedule::serial;
