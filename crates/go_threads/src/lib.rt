//! A thread for each goroutine of a Go program that is run.
#![tactic(auto)]

mod back;
mod joining;
mod leading;
mod promise;
mod rounds;
mod running;
mod serving;
mod started;
mod starting;
mod stepping;
mod turning;

pub use back::{Back, Mark, Serves};
pub use running::run_threads;
pub use turning::{Turned, turn};
