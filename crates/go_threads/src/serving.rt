//! A thread's work, and what it gives back.
ghost use Rattle.std.specs.Prelude.{◌≡◌, ◌≢◌, IfOk, IfErr};
ghost use Rattle.cov_outside.specs.declared.mode.Mode.TheVariants as mode;
ghost use Rattle.cov_cells.specs.Seats.{view, origin};
ghost use Rattle.go_threads.specs.Backs.{IsBack};
ghost use Rattle.go_threads.specs.Runnable.{IsRunnable};
ghost use Rattle.go_threads.specs.Seats.{IsBetween};

use crate::back::{Back, Mark, Serves};
use crate::turning::{Turned, turn};
use cov_cells::{Cells, Seat};
use cov_outside::Gate;
use go_meaning::Program;
use go_meaning::laws::standing;
use go_state::laws::histories_grow;
use std::alloc::Global;
use std::snapshot::Snapshot;
use std::sync::atomic::AtomicBool;
use std::sync::atomic::Ordering::SeqCst;
use std::sync::{Arc, Wait};
use std::thread::{PromisedHandle, Scope, Threads, yield_now};

/// Serves a goroutine until its turn finds nothing more to do, or memory is wanted.
pub(crate) fn serve<R: Wait, G: Gate>(
    rt: &R,
    cells: &Cells,
    mut seat: Seat,
    program: &Program,
    gate: &G,
) -> Back
    requires between { IsBetween cells.now seat }
    requires number { (view seat).number ≢ 0 }
    requires program { program.now ≡ (origin cells.now).program }
    requires runnable { IsRunnable program.now }
    requires mode { (origin cells.now).mode ≢ mode.Count }
    ensures { IsBack cells.now seat result }
{
    standing();
    histories_grow();
    for _ in rt.forever() {
        match turn(rt, cells, &mut seat, program, gate) {
            Ok(Turned::Ended) => {
                return Back {
                    seat,
                    mark: Mark::Ended,
                };
            }
            Ok(Turned::NotReady) => yield_now(),
            Ok(Turned::Stepped) => {}
            Err(_) => {
                return Back {
                    seat,
                    mark: Mark::Refused,
                };
            }
        }
    }
    unreachable!()
}

// What a thread does: it serves its seat, unless its start was handed back.
fn work<R: Wait, G: Gate>(
    rt: &R,
    cells: &Cells,
    seat: Seat,
    program: &Program,
    gate: &G,
    handed_back: &AtomicBool,
) -> Back
    requires between { IsBetween cells.now seat }
    requires number { (view seat).number ≢ 0 }
    requires program { program.now ≡ (origin cells.now).program }
    requires runnable { IsRunnable program.now }
    requires mode { (origin cells.now).mode ≢ mode.Count }
    ensures { IsBack cells.now seat result }
{
    if handed_back.load(SeqCst) {
        return Back {
            seat,
            mark: Mark::Unserved,
        };
    }
    serve(rt, cells, seat, program, gate)
}

/// Starts a thread for the seat, or gives the seat back, as a rule unserved.
pub(crate) fn start<'s, E, R: Threads + Wait + Sync, G: Gate>(
    rt: &'s R,
    scope: &Scope<'s, E>,
    cells: &'s Cells,
    seat: Seat,
    program: &'s Program,
    gate: &'s G,
    flag: Arc<AtomicBool, Global>,
    handed_back: Arc<AtomicBool, Global>,
) -> Result<PromisedHandle<Back, Serves>, Back>
    requires between { IsBetween cells.now seat }
    requires number { (view seat).number ≢ 0 }
    requires program { program.now ≡ (origin cells.now).program }
    requires runnable { IsRunnable program.now }
    requires mode { (origin cells.now).mode ≢ mode.Count }
    ensures ok { IfOk result (λ h. (h.promise.0.value ≡ cells.now) × (h.promise.1.value ≡ seat)) }
    ensures err { IfErr result (λ b. IsBack cells.now seat b) }
{
    let promise = Serves(Snapshot::of(cells), Snapshot::of(&seat));
    let serves = move || -> Back
        requires { IsBetween cells.now seat × ((view seat).number ≢ 0) × (program.now ≡ (origin cells.now).program) × IsRunnable program.now × ((origin cells.now).mode ≢ mode.Count) }
        ensures { IsBack cells.entry.now seat result }
    { work(rt, cells, seat, program, gate, &handed_back) };
    match scope.spawn_with(promise, serves) {
        Ok(handle) => Ok(handle),
        Err(refusal) => {
            flag.store(true, SeqCst);
            Err((refusal.value)())
        }
    }
}
