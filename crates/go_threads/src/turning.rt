//! One turn of a goroutine.
ghost use Rattle.std.specs.Prelude.{◌≡◌, ◌≢◌, ◌<◌, ℕ, IfOk, IfErr, Some, None};
ghost use Rattle.cov_outside.specs.declared.mode.Mode.TheVariants as mode;
ghost use Rattle.cov_cells.specs.Seats.{view, origin, IsSameSeat};
ghost use Rattle.cov_cells.specs.Steps.{after_count};
ghost use Rattle.go_threads.specs.Runnable.{IsRunnable};
ghost use Rattle.go_threads.specs.Seats.{IsBetween};
ghost use Rattle.go_threads.specs.Turns.{Finds, IsTurn, IsWhole};

use crate::stepping::{advance, due_in, found, record};
use cov_cells::{Cells, Seat};
use cov_outside::{Gate, Mode};
use go_ast::NoMemory;
use go_meaning::Program;
use go_meaning::laws::standing;
use std::alloc::AllocError;
use std::sync::Wait;

/// What a turn found to do.
#[derive(Clone, Copy, Debug, PartialEq, Eq)]
pub enum Turned {
    /// The goroutine stood at no counter, and it was over or the program had an end.
    Ended,
    /// It stood at no counter and had no step, and wasn't over.
    NotReady,
    /// Anything else.
    Stepped,
}

// Does the counter step of the due unit, if there is one.
fn count(cells: &Cells, seat: &mut Seat, due: Option<u32>)
    requires between { IsBetween cells.now seat.old }
    requires mode { (origin cells.now).mode ≢ mode.Count }
    requires due { (view seat.old).due ≡ due }
    requires below { (u : ℕ) → due ≡ Some u → u < (origin cells.now).program.units }
    requires idle { (view seat.old).pending ≡ None }
    ensures seat { IsSameSeat seat.old seat.new }
    ensures view { view seat.new ≡ after_count (view seat.old) }
{
    let Some(unit) = due else {
        return;
    };
    match cells.mode() {
        Mode::Atomic => cells.bump(seat, unit),
        Mode::Set => cells.set(seat, unit),
        Mode::Count => unreachable!(),
    }
}

/// One turn of the goroutine with the seat's number: its pending counter step is recorded, and then it takes steps, at most
/// 1,000, until it stands at a counter, isn't ready or is over, or the program has an end. Last comes its counter step,
/// outside the turn.
///
/// The answer is of the state that the turn found. Where memory is wanted the run is marked so and given on; each later
/// turn then takes no step and answers so.
pub fn turn<R: Wait, G: Gate>(
    rt: &R,
    cells: &Cells,
    seat: &mut Seat,
    program: &Program,
    gate: &G,
) -> Result<Turned, NoMemory>
    requires between { IsBetween cells.now seat.old }
    requires number { (view seat.old).number ≢ 0 }
    requires program { program.now ≡ (origin cells.now).program }
    requires runnable { IsRunnable program.now }
    requires mode { (origin cells.now).mode ≢ mode.Count }
    ensures between { IsBetween cells.now seat.new }
    ensures seat { IsSameSeat seat.old seat.new }
    ensures turn { IsTurn program.now (origin cells.now).limits.steps (view seat.old) (view seat.new) }
    ensures whole { IfOk result (λ _. IsWhole program.now (origin cells.now).limits.steps (view seat.old) (view seat.new)) }
    ensures finds { IfOk result (Finds program.now (origin cells.now).limits.steps (view seat.new).taken (view seat.old).number) }
{
    gate.pass(seat.number());
    let mut run = cells.take_turn(rt, seat);
    run.known();
    program.known();
    standing();
    let goroutine = seat.number() as u16;
    let found = found(&run, program, goroutine);
    record(&mut run, program, goroutine, seat.pending());
    run.known();
    advance(&mut run, program, goroutine);
    run.known();
    let refused = run.refused();
    let due = due_in(&run, program, goroutine);
    cells.give_turn(seat, run, due);
    count(cells, seat, due);
    if refused { Err(AllocError) } else { Ok(found) }
}
