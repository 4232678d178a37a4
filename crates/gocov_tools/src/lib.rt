//! The commands, and the call that does what a list of words means.
#![tactic(auto)]

mod combine;
mod covering;
mod data;
mod dump;
mod entries;
mod journal;
pub mod laws;
mod line;
mod listing;
mod measure;
mod merge;
mod operation;
mod package_texts;
mod perform;
mod pod_files;
mod pods;
mod reading;
mod refusal;
mod report;
mod source_name;
mod status;
mod top;
mod work;

pub use covering::cover;
pub use data::covdata;
pub use gocov_words::{Command, CoverArgs, DataArgs, Sub, WordsFault, read_words};
pub use journal::{End, Event, Journal};
pub use status::Status;
pub use top::gocov;

#[cfg(test)]
mod tests;
