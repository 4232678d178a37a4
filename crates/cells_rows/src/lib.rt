//! Rows of cells: a counter that is counted by a thread's seat.
#![tactic(auto)]

#[cfg(test)]
mod program;
#[cfg(test)]
mod tests;
#[cfg(test)]
mod turns;
