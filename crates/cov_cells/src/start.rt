//! What the rule of the cells is told when they are made.
use cov_outside::Mode;
use go_state::Run;
use std::snapshot::Snapshot;

/// The mode, the words of the table and the run with which cells began.
#[derive(Drop)]
pub struct Start {
    pub mode: Mode,
    /// The word of the turn, and then those of the units.
    pub words: Snapshot<Vec<u64>>,
    pub run: Snapshot<Run>,
}
