//! Rows of runs with a thread for each goroutine.
#![tactic(auto)]

#[cfg(test)]
mod counted;
#[cfg(test)]
mod ends;
#[cfg(test)]
mod gates;
#[cfg(test)]
mod parts;
#[cfg(test)]
mod programs;
#[cfg(test)]
mod running;
#[cfg(test)]
mod tests;
