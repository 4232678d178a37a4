//! What a thread gives back.
use cov_cells::{Cells, Seat};
use std::snapshot::Snapshot;

/// What became of a seat that a thread was given.
#[derive(Clone, Copy, Debug, PartialEq, Eq)]
pub enum Mark {
    /// Its last turn answered `Ended`.
    Ended,
    /// Its last turn wanted memory.
    Refused,
    /// It had no turn.
    Unserved,
}

/// A seat that a thread was given, and what became of it.
#[derive(Drop)]
pub struct Back {
    pub seat: Seat,
    pub mark: Mark,
}

/// The cells and the seat with which a thread was started.
#[derive(Drop)]
pub struct Serves(pub Snapshot<Cells>, pub Snapshot<Seat>);
