//! Joining all seats to seat 0.
ghost use Rattle.std.specs.Prelude.{◌≡◌, ◌≢◌, ℕ, ◌+◌, ◌<◌, All, IfOk, length, slice_index_or, vec_len};
ghost use Rattle.cov_outside.specs.declared.mode.Mode.TheVariants as mode;
ghost use Rattle.cov_cells.specs.Rule.{Begins};
ghost use Rattle.cov_cells.specs.Seats.{view, origin};
ghost use Rattle.go_threads.specs.Runnable.{IsRunnable};
ghost use Rattle.go_threads.specs.Seats.{IsAlone, IsDone, Leads};
ghost use Rattle.go_threads.specs.Starts.{IsServed, Starts, number_of};

use crate::back::{Back, Mark};
use crate::serving::serve;
use crate::started::Started;
use cov_cells::{Cells, Seat};
use cov_outside::Gate;
use go_ast::NoMemory;
use go_meaning::Program;
use std::alloc::AllocError;
use std::sync::Wait;
use std::thread::Threads;

// Waits for a thread, and serves its seat where that had no turn.
fn joined<R: Threads + Wait, G: Gate>(
    rt: &R,
    cells: &Cells,
    one: Started,
    program: &Program,
    gate: &G,
) -> Result<Seat, NoMemory>
    requires starts { Starts cells.now one }
    requires served { IsServed cells.now one }
    requires program { program.now ≡ (origin cells.now).program }
    requires runnable { IsRunnable program.now }
    requires mode { (origin cells.now).mode ≢ mode.Count }
    ensures done { IfOk result (IsDone cells.now) }
    ensures number { IfOk result (λ s. ((view s).number ≡ number_of one) × ((view s).gathered ≡ 0) × ((view s).number ≢ 0)) }
{
    match one {
        Started::Here(seat) => Ok(seat),
        Started::Thread(handle) => {
            let Back { seat, mark } = handle.join(rt);
            match mark {
                Mark::Ended => Ok(seat),
                Mark::Refused => Err(AllocError),
                Mark::Unserved => {
                    let Back { seat, mark } = serve(rt, cells, seat, program, gate);
                    match mark {
                        Mark::Ended => Ok(seat),
                        Mark::Refused => Err(AllocError),
                        Mark::Unserved => Err(AllocError),
                    }
                }
            }
        }
    }
}

/// Joins all seats to seat 0, those of threads once these have ended.
pub(crate) fn join_all<R: Threads + Wait, G: Gate>(
    rt: &R,
    cells: &Cells,
    mut seat: Seat,
    started: Vec<Started>,
    program: &Program,
    gate: &G,
) -> Result<Seat, NoMemory>
    requires leads { Leads cells.now seat }
    requires none { (view seat).gathered ≡ 0 }
    requires made { (view seat).made ≡ vec_len started }
    requires starts { All (Starts cells.now) started.items }
    requires served { All (IsServed cells.now) started.items }
    requires numbers { (k : ℕ) (d : _) → k < length started.items → number_of (slice_index_or started.items k d) ≡ k + 1 }
    requires program { program.now ≡ (origin cells.now).program }
    requires runnable { IsRunnable program.now }
    requires mode { (origin cells.now).mode ≢ mode.Count }
    ensures alone { IfOk result (IsAlone cells.now) }
    ensures given { IfOk result (λ s. Begins (view seat).given (view s).given × ((view s).made ≡ (view seat).made)) }
{
    for one in started {
        let other = joined(rt, cells, one, program, gate)?;
        cells.join(&mut seat, other);
    }
    Ok(seat)
}
