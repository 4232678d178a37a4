//! A seat and a thread for each goroutine.
ghost use Rattle.std.specs.Prelude.{◌≡◌, ◌≢◌, ℕ, ◌+◌, ◌<◌, All, IfOk, length, slice_index_or, vec_len};
ghost use Rattle.cov_outside.specs.declared.mode.Mode.TheVariants as mode;
ghost use Rattle.cov_cells.specs.Seats.{view, origin};
ghost use Rattle.go_threads.specs.Runnable.{IsRunnable};
ghost use Rattle.go_threads.specs.Seats.{IsFinished, IsServable, Leads};
ghost use Rattle.go_threads.specs.Starts.{Starts, number_of};

use crate::leading::{Led, lead};
use crate::rounds::round;
use crate::serving::start;
use crate::started::Started;
use cov_cells::{Cells, Seat};
use cov_outside::Gate;
use go_ast::NoMemory;
use go_meaning::Program;
use std::alloc::{AllocError, Global};
use std::sync::atomic::AtomicBool;
use std::sync::{Arc, Wait};
use std::thread::{Scope, Threads, yield_now};

// Starts a thread for a seat. Where there is an end, or the start is handed back, the caller serves it.
fn begin<'s, E, R: Threads + Wait + Sync, G: Gate>(
    rt: &'s R,
    scope: &Scope<'s, E>,
    alloc: Global,
    cells: &'s Cells,
    seat: Seat,
    program: &'s Program,
    gate: &'s G,
    ended: bool,
) -> Result<Started, NoMemory>
    requires seat { IsServable cells.now seat }
    requires program { program.now ≡ (origin cells.now).program }
    requires runnable { IsRunnable program.now }
    requires mode { (origin cells.now).mode ≢ mode.Count }
    ensures { IfOk result (λ one. Starts cells.now one × (number_of one ≡ (view seat).number)) }
{
    if ended {
        return Ok(Started::Here(seat));
    }
    let flag = Arc::new(alloc, AtomicBool::new(false))?;
    let handed_back = Arc::try_clone(&flag)?;
    match start(rt, scope, cells, seat, program, gate, flag, handed_back) {
        Ok(handle) => Ok(Started::Thread(handle)),
        Err(back) => Ok(Started::Here(back.seat)),
    }
}

/// Makes a seat and a thread for each goroutine, until there is an end and each has a seat.
pub(crate) fn start_all<'s, E, R: Threads + Wait + Sync, G: Gate>(
    rt: &'s R,
    scope: &Scope<'s, E>,
    alloc: Global,
    cells: &'s Cells,
    seat: &mut Seat,
    program: &'s Program,
    gate: &'s G,
) -> Result<Vec<Started>, NoMemory>
    requires leads { Leads cells.now seat.old }
    requires none { ((view seat.old).made ≡ 0) × ((view seat.old).gathered ≡ 0) }
    requires program { program.now ≡ (origin cells.now).program }
    requires runnable { IsRunnable program.now }
    requires mode { (origin cells.now).mode ≢ mode.Count }
    ensures leads { Leads cells.now seat.new }
    ensures gathered { (view seat.new).gathered ≡ 0 }
    ensures made { IfOk result (λ started. (view seat.new).made ≡ vec_len started) }
    ensures finished { IfOk result (λ _. IsFinished cells.now seat.new) }
    ensures starts { IfOk result (λ started. All (Starts cells.now) started.items) }
    ensures numbers { IfOk result (λ started. (k : ℕ) (d : _) → k < length started.items → number_of (slice_index_or started.items k d) ≡ k + 1) }
{
    let mut started = Vec::new(alloc);
    for _ in rt.forever() {
        round(rt, cells, &mut started, program, gate)?;
        yield_now();
        let Led {
            new,
            ended,
            refused,
        } = lead(rt, cells, seat);
        if refused {
            return Err(AllocError);
        }
        let Some(other) = new else {
            if ended {
                return Ok(started);
            }
            continue;
        };
        started.reserve(1)?;
        let one = begin(rt, scope, alloc, cells, other, program, gate, ended)?;
        started.push_reserved(one);
    }
    unreachable!()
}
