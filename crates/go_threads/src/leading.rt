//! The turns of seat 0.
ghost use Rattle.std.specs.Prelude.{◌≡◌, ◌≢◌, ◌+◌, true, IfSome, IfNone, is_some};
ghost use Rattle.cov_cells.specs.Seats.{view, origin};
ghost use Rattle.go_threads.specs.Seats.{IsFinished, IsServable, Leads};

use cov_cells::{Cells, Seat};
use go_meaning::laws::standing;
use std::sync::Wait;

/// What seat 0 found in its turn.
#[derive(Drop)]
pub(crate) struct Led {
    /// The seat of a goroutine that had none.
    pub new: Option<Seat>,
    /// Whether the run had an end.
    pub ended: bool,
    /// Whether a call of this run wanted memory.
    pub refused: bool,
}

/// A turn of seat 0: it makes a seat, if a goroutine has none.
pub(crate) fn lead<R: Wait>(rt: &R, cells: &Cells, seat: &mut Seat) -> Led
    requires { Leads cells.now seat.old }
    ensures leads { Leads cells.now seat.new }
    ensures gathered { (view seat.new).gathered ≡ (view seat.old).gathered }
    ensures new { IfSome result.new (λ s. IsServable cells.now s × ((view seat.new).made ≡ (view seat.old).made + 1) × ((view s).number ≡ (view seat.old).made + 1)) }
    ensures none { IfNone result.new ((view seat.new).made ≡ (view seat.old).made) }
    ensures finished { IfNone result.new (result.ended ≡ true → IsFinished cells.now seat.new) }
{
    let mut run = cells.take_turn(rt, seat);
    run.known();
    let ended = run.end().is_some();
    let refused = run.refused();
    if run.served() < run.goroutines() {
        let new = cells.split(seat, &mut run);
        cells.give_turn(seat, run, None);
        return Led {
            new: Some(new),
            ended,
            refused,
        };
    }
    cells.give_turn(seat, run, None);
    Led {
        new: None,
        ended,
        refused,
    }
}

/// A turn of seat 0 that marks the run as one of which a call wanted memory.
pub(crate) fn refuse<R: Wait>(rt: &R, cells: &Cells, seat: &mut Seat)
    requires { Leads cells.now seat.old }
{
    let mut run = cells.take_turn(rt, seat);
    run.refuse();
    cells.give_turn(seat, run, None);
}
