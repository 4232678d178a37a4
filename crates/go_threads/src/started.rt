//! What was started for a seat.
use crate::back::{Back, Serves};
use cov_cells::Seat;
use std::thread::PromisedHandle;

/// A thread that serves the seat, or the seat, which the caller serves.
#[derive(Drop)]
pub(crate) enum Started {
    Thread(PromisedHandle<Back, Serves>),
    Here(Seat),
}
