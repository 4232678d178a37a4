//! Covered texts: sources with counters put in.
#![tactic(auto)]

mod addition;
mod covered;
pub mod laws;
mod number;
mod piece;
mod reserved;
mod rewriting;
mod trailer;
mod units;
mod weaving;

pub use covered::{Rewritten, counted_text, covered_text};
pub use piece::{Addition, Piece};
pub use reserved::reserved_name;
pub use rewriting::{rewrite, rewrite_counted};

#[cfg(test)]
mod tests;
