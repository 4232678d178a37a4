//! Rows of serial journals, with and without their counter events.
#![tactic(auto)]

#[cfg(test)]
mod tests;
