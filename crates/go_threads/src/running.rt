//! The run of a program, with a thread for each goroutine.
ghost use Rattle.std.specs.Prelude.{◌≡◌, ◌≢◌, IfOk};
ghost use Rattle.cov_outside.specs.declared.mode.Mode.TheVariants as modes;
ghost use Rattle.cov_cells.specs.Seats.{view, origin};
ghost use Rattle.go_threads.specs.Outcomes.{IsOutcome};
ghost use Rattle.go_threads.specs.Runnable.{IsRunnable};
ghost use Rattle.go_threads.specs.Seats.{EndedBy, IsAlone, Leads};

use crate::joining::join_all;
use crate::leading::refuse;
use crate::rounds::serve_all;
use crate::starting::start_all;
use cov_cells::{Cells, Closed, Seat};
use cov_erase::laws::erased;
use cov_outside::{Gate, Mode};
use go_ast::NoMemory;
use go_meaning::Program;
use go_meaning::laws::shapes_run_alike;
use go_state::laws::histories_grow;
use go_state::{Limits, Run};
use std::alloc::Global;
use std::sync::Wait;
use std::thread;
use std::thread::{Scope, Threads};

// Starts all threads, serves the seats that were handed back, and joins all to seat 0.
fn all<'s, E, R: Threads + Wait + Sync, G: Gate>(
    rt: &'s R,
    scope: &Scope<'s, E>,
    alloc: Global,
    cells: &'s Cells,
    mut seat: Seat,
    program: &'s Program,
    gate: &'s G,
) -> Result<Seat, NoMemory>
    requires leads { Leads cells.now seat }
    requires none { ((view seat).made ≡ 0) × ((view seat).gathered ≡ 0) }
    requires program { program.now ≡ (origin cells.now).program }
    requires runnable { IsRunnable program.now }
    requires mode { (origin cells.now).mode ≢ modes.Count }
    ensures alone { IfOk result (IsAlone cells.now) }
    ensures ended { IfOk result (EndedBy cells.now) }
{
    match start_all(rt, scope, alloc, cells, &mut seat, program, gate) {
        Ok(mut started) => {
            serve_all(rt, cells, &mut started, program, gate)?;
            histories_grow();
            join_all(rt, cells, seat, started, program, gate)
        }
        Err(e) => {
            refuse(rt, cells, &mut seat);
            Err(e)
        }
    }
}

/// Runs a program to its end and its rest, with a thread for each goroutine but those whose start is handed back, which the
/// caller serves.
///
/// The words are those of the entries of each unit in the history without its counter steps.
pub fn run_threads<R: Threads + Wait + Sync, G: Gate>(
    rt: &R,
    alloc: Global,
    program: &Program,
    mode: Mode,
    limits: Limits,
    gate: &G,
) -> Result<Closed, NoMemory>
    requires runnable { IsRunnable program.now }
    requires mode { mode ≢ modes.Count }
    ensures { IfOk result (IsOutcome program.now limits mode) }
{
    let words = Vec::from_elem(alloc, 0u32, program.units() as usize)?;
    let mut run = Run::start(alloc, program, limits)?;
    run.reserve()?;
    let (cells, seat) = Cells::new(alloc, words.as_slice(), mode, run)?;
    let shared = &cells;
    let seat = thread::scope(
        thread::scope_env(),
        rt,
        move |scope| -> Result<Seat, NoMemory>
            requires { Leads shared.now seat × ((view seat).made ≡ 0) × ((view seat).gathered ≡ 0) × (program.now ≡ (origin shared.now).program) × IsRunnable program.now × ((origin shared.now).mode ≢ modes.Count) }
            ensures { IfOk result (λ s. IsAlone shared.entry.now s × EndedBy shared.entry.now s) }
        { all(rt, scope, alloc, shared, seat, program, gate) },
    )?;
    let closed = cells.close(seat)?;
    erased();
    shapes_run_alike();
    histories_grow();
    let _ = closed.run().end();
    Ok(closed)
}
