//! Runs under a million steps.
ghost use Rattle.std.specs.Prelude.{◌≢◌};
ghost use Rattle.cov_outside.specs.declared.mode.Mode.TheVariants as modes;
ghost use Rattle.go_threads.specs.Runnable.{IsRunnable};

use cov_cells::Closed;
use cov_outside::{Gate, Mode};
use go_ast::NoMemory;
use go_meaning::Program;
use go_state::Limits;
use go_threads::run_threads;
use std::alloc::Global;
use std::sync::Wait;
use std::thread::Threads;

const STEPS: u32 = 1_000_000;

pub(crate) fn ran<R: Threads + Wait + Sync, G: Gate>(
    rt: &R,
    alloc: Global,
    program: &Program,
    mode: Mode,
    gate: &G,
) -> Result<Closed, NoMemory>
    requires runnable { IsRunnable program.now }
    requires mode { mode ≢ modes.Count }
{
    run_threads(rt, alloc, program, mode, Limits { steps: STEPS }, gate)
}
