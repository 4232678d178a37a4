//! The words of a command line, and what they mean.
#![tactic(auto)]

mod command;
mod cover;
mod data;
mod end;
mod fault;
mod flag;
mod flags;
mod front;
mod heading;
mod list;
mod read;
mod run;
mod sub;
#[cfg(test)]
mod tests;
mod text;
mod value;
mod variable;
mod word;

pub use command::{Command, CoverArgs, DataArgs, RunArgs};
pub use fault::WordsFault;
pub use read::read_words;
pub use sub::Sub;
