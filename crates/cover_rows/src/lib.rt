//! `cover` from words to file, by rows.
#![tactic(auto)]

#[cfg(test)]
mod tests;
