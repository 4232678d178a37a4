//! Counter files: how often each unit of a program ran.
#![tactic(auto)]

mod entry;
mod fault;
mod head;
mod held;
pub mod laws;
mod parts;
mod reader;
mod rest;
mod source;
mod stage;
mod write;

pub use entry::Entry;
pub use fault::CounterFault;
pub use head::Head;
pub use reader::CounterReader;
pub use stage::Stage;
pub use write::write_counters;

#[cfg(test)]
mod tests;
