//! Turns of seats, without steps of the program.
ghost use Rattle.std.specs.Prelude.{◌≡◌, ◌≢◌, ◌+◌, ◌*◌, ◌<◌, ◌≤◌, [], ◌∷◌, ◌++◌, length, slice_get, suc, ◌^◌, Some, None, IfOk, OnOk};
ghost use Rattle.go_meaning.specs.Steps as steps;
ghost use Rattle.go_meaning.specs.Entries.{count_at};
ghost use Rattle.cov_cells.specs.Rule.{due_after};
ghost use Rattle.cov_cells.specs.Seats.{view, origin};
ghost use Rattle.cells_rows.specs.Between.{IsBetween};

use cov_cells::{Cells, Seat};
use go_ast::NoMemory;
use go_meaning::{Config, Event, Program};
use go_state::{Limits, Run};
use go_step::beginning::due;
use std::alloc::{AllocError, Global};
use std::sync::Wait;

// Takes a step, and makes room for the whole history.
fn applied(run: &mut Run, program: &Program, event: Event) -> Result<(), NoMemory>
    requires { program.now ≡ run.old.program }
    ensures run { OnOk result (run.new ≡ record run.old { history = run.old.history ++ event ∷ []; spare = run.new.spare }) }
    ensures room { OnOk result (2 * run.old.limits.steps + 256 ≤ length run.new.history + run.new.spare) }
{
    if run.apply(program, event).is_err() {
        return Err(AllocError);
    }
    run.reserve()
}

// Records a counter step, if one is pending.
fn recorded(
    run: &mut Run,
    program: &Program,
    goroutine: u16,
    pending: Option<u32>,
) -> Result<(), NoMemory>
    requires { program.now ≡ run.old.program }
    ensures run { OnOk result (run.new ≡ record run.old { history = run.old.history ++ count_at pending goroutine; spare = run.new.spare }) }
    ensures room { OnOk result (2 * run.old.limits.steps + 256 ≤ length run.new.history + run.new.spare) }
{
    match pending {
        Some(unit) => applied(run, program, Event::Count { goroutine, unit }),
        None => run.reserve(),
    }
}

/// A run whose goroutine 1 has begun.
pub(crate) fn begun(alloc: Global, program: &Program) -> Result<Run, NoMemory>
    ensures program { IfOk result (λ run. run.program ≡ program.now) }
    ensures served { IfOk result (λ run. run.served ≡ 0) }
    ensures room { IfOk result (λ run. 2 * run.limits.steps + 256 ≤ length run.history + run.spare) }
{
    let mut run = Run::start(alloc, program, Limits { steps: 10 })?;
    let begins = Event::Step {
        goroutine: 1,
        case: 0,
        partner: 0,
        partner_case: 0,
    };
    applied(&mut run, program, begins)?;
    Ok(run)
}

// The unit at whose counter the goroutine of an index stands.
fn due_of(config: &Config, program: &Program, index: usize) -> Option<u32>
    ensures { result ≡ steps.due program.now (slice_get config.now.goroutines index) }
{
    match config.goroutines.get(index) {
        Some(goroutine) => due(program, goroutine),
        None => None,
    }
}

// The unit at whose counter a goroutine stands, by its number.
fn due_in(run: &Run, program: &Program, goroutine: u16) -> Option<u32>
    requires program { program.now ≡ run.now.program }
    requires number { 0 < goroutine }
    ensures { result ≡ due_after run.now.program run.now.history goroutine }
{
    due_of(run.config(), program, goroutine as usize - 1)
}

/// A turn of seat 0, which makes the seat of the next goroutine.
pub(crate) fn first_turn<R: Wait>(rt: &R, cells: &Cells, seat: &mut Seat) -> Result<Seat, NoMemory>
    requires between { IsBetween cells.now seat.old }
    requires first { ((view seat.old).number ≡ 0) × ((view seat.old).pending ≡ None) }
    ensures seat { IfOk result (λ _. IsBetween cells.now seat.new) }
    ensures done { IfOk result (λ _. ((view seat.new).number ≡ 0) × ((view seat.new).due ≡ None) × ((view seat.new).pending ≡ None)) }
    ensures made { IfOk result (λ _. ((view seat.new).made ≡ suc (view seat.old).made) × ((view seat.new).gathered ≡ (view seat.old).gathered)) }
    ensures new { IfOk result (λ s. IsBetween cells.now s) }
    ensures number { IfOk result (λ s. (0 < (view s).number) × ((view s).number < 2 ^ 16) × ((view s).pending ≡ None) × ((view s).gathered ≡ 0)) }
{
    let mut run = cells.take_turn(rt, seat);
    run.known();
    if run.served() == run.goroutines() {
        return Err(AllocError);
    }
    let worker = cells.split(seat, &mut run);
    cells.give_turn(seat, run, None);
    Ok(worker)
}

/// A turn of a goroutine's seat: its pending counter is recorded. The unit at whose counter the goroutine then stands.
pub(crate) fn turn<R: Wait>(
    rt: &R,
    cells: &Cells,
    seat: &mut Seat,
    program: &Program,
) -> Result<Option<u32>, NoMemory>
    requires between { IsBetween cells.now seat.old }
    requires number { (0 < (view seat.old).number) × ((view seat.old).number < 2 ^ 16) }
    requires program { program.now ≡ (origin cells.now).program }
    ensures between { IfOk result (λ _. IsBetween cells.now seat.new) }
    ensures same { IfOk result (λ _. ((view seat.new).number ≡ (view seat.old).number) × ((view seat.new).gathered ≡ (view seat.old).gathered)) }
    ensures due { IfOk result (λ due. ((view seat.new).due ≡ due) × ((view seat.new).pending ≡ None)) }
{
    let mut run = cells.take_turn(rt, seat);
    let number = seat.number();
    let pending = seat.pending();
    let goroutine = number as u16;
    recorded(&mut run, program, goroutine, pending)?;
    let due = due_in(&run, program, goroutine);
    cells.give_turn(seat, run, due);
    Ok(due)
}
