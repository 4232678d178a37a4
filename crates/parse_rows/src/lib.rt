//! Sources by hand: whether they have a tree, and where else their first fault stands.
#![tactic(auto)]

#[cfg(test)]
mod tests;
