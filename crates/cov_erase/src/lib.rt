//! Programs and histories without counters, and the laws that join them to those with counters.
#![tactic(auto)]

mod erasing;
pub mod laws;

pub use erasing::{erase_events, erase_program};
