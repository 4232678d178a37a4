//! The cells of a run that several threads take turns at: the turn, a word for each unit, and the run.
//!
//! A thread takes part through its seat. Whoever has the turn has the run; counter steps need no turn.
#![tactic(auto)]

mod cells;
mod closed;
mod closing;
mod moves;
mod plays;
mod rule;
mod start;
mod view;

pub use cells::{Cells, Seat};
pub use closed::Closed;
pub use start::Start;
pub use view::{Origin, View};
