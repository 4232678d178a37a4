//! Modules by hand: their packages in load order, or the first refusal.
#![tactic(auto)]

#[cfg(test)]
mod tests;
