//! What a run leaves.
use cov_outside::Sequence;
use go_meaning::{End, Event};

/// A run that is over: its history, what it has printed, and its end.
#[derive(Debug, Drop)]
pub struct Ran {
    pub events: Sequence<Event>,
    pub output: Sequence<u8>,
    pub end: End,
}
