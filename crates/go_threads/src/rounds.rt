//! Seats that the caller serves itself, in rotation.
ghost use Rattle.std.specs.Prelude.{◌≡◌, ◌≢◌, ℕ, ◌<◌, true, false, All, IfOk, OnOk, length, slice_index_or};
ghost use Rattle.cov_outside.specs.declared.mode.Mode.TheVariants as mode;
ghost use Rattle.cov_cells.specs.Seats.{view, origin};
ghost use Rattle.go_threads.specs.Runnable.{IsRunnable};
ghost use Rattle.go_threads.specs.Seats.{IsServable, IsDone, IsSame};
ghost use Rattle.go_threads.specs.Starts.{IsServed, Starts, number_of};

use crate::started::Started;
use crate::turning::{Turned, turn};
use cov_cells::{Cells, Seat};
use cov_outside::Gate;
use go_ast::NoMemory;
use go_meaning::Program;
use go_meaning::laws::standing;
use go_state::laws::histories_grow;
use std::sync::Wait;
use std::thread::yield_now;

// One turn of a seat. Whether it found nothing more to do.
fn has_ended<R: Wait, G: Gate>(
    rt: &R,
    cells: &Cells,
    seat: &mut Seat,
    program: &Program,
    gate: &G,
) -> Result<bool, NoMemory>
    requires seat { IsServable cells.now seat.old }
    requires program { program.now ≡ (origin cells.now).program }
    requires runnable { IsRunnable program.now }
    requires mode { (origin cells.now).mode ≢ mode.Count }
    ensures seat { IsServable cells.now seat.new }
    ensures same { IsSame (view seat.old) (view seat.new) }
    ensures done { IfOk result (λ ended. ended ≡ true → IsDone cells.now seat.new) }
{
    standing();
    histories_grow();
    match turn(rt, cells, seat, program, gate)? {
        Turned::Ended => Ok(true),
        Turned::NotReady => Ok(false),
        Turned::Stepped => Ok(false),
    }
}

// One turn of a seat that the caller serves. Whether it found nothing more to do.
fn serves<R: Wait, G: Gate>(
    rt: &R,
    cells: &Cells,
    one: &mut Started,
    program: &Program,
    gate: &G,
) -> Result<bool, NoMemory>
    requires starts { Starts cells.now one.old }
    requires program { program.now ≡ (origin cells.now).program }
    requires runnable { IsRunnable program.now }
    requires mode { (origin cells.now).mode ≢ mode.Count }
    ensures starts { Starts cells.now one.new }
    ensures number { number_of one.new ≡ number_of one.old }
    ensures served { IfOk result (λ ended. ended ≡ true → IsServed cells.now one.new) }
{
    match one {
        Started::Thread(_) => Ok(true),
        Started::Here(seat) => has_ended(rt, cells, seat, program, gate),
    }
}

/// One turn for each seat that the caller serves, in order. `true` where the turn of at least one found something to do.
pub(crate) fn round<R: Wait, G: Gate>(
    rt: &R,
    cells: &Cells,
    started: &mut Vec<Started>,
    program: &Program,
    gate: &G,
) -> Result<bool, NoMemory>
    requires starts { All (Starts cells.now) started.old.items }
    requires program { program.now ≡ (origin cells.now).program }
    requires runnable { IsRunnable program.now }
    requires mode { (origin cells.now).mode ≢ mode.Count }
    ensures length { length started.new.items ≡ length started.old.items }
    ensures starts { All (Starts cells.now) started.new.items }
    ensures numbers { (k : ℕ) (d : _) → k < length started.new.items → number_of (slice_index_or started.new.items k d) ≡ number_of (slice_index_or started.old.items k d) }
    ensures served { IfOk result (λ going. going ≡ false → All (IsServed cells.now) started.new.items) }
{
    let mut going = false;
    let mut i = 0;
    while i < started.len() {
        if !serves(rt, cells, &mut started[i], program, gate)? {
            going = true;
        }
        i += 1;
    }
    Ok(going)
}

/// Serves all seats that the caller serves until none has anything more to do.
pub(crate) fn serve_all<R: Wait, G: Gate>(
    rt: &R,
    cells: &Cells,
    started: &mut Vec<Started>,
    program: &Program,
    gate: &G,
) -> Result<(), NoMemory>
    requires starts { All (Starts cells.now) started.old.items }
    requires program { program.now ≡ (origin cells.now).program }
    requires runnable { IsRunnable program.now }
    requires mode { (origin cells.now).mode ≢ mode.Count }
    ensures length { length started.new.items ≡ length started.old.items }
    ensures starts { All (Starts cells.now) started.new.items }
    ensures numbers { (k : ℕ) (d : _) → k < length started.new.items → number_of (slice_index_or started.new.items k d) ≡ number_of (slice_index_or started.old.items k d) }
    ensures served { OnOk result (All (IsServed cells.now) started.new.items) }
{
    for _ in rt.forever() {
        if !round(rt, cells, started, program, gate)? {
            return Ok(());
        }
        yield_now();
    }
    unreachable!()
}
