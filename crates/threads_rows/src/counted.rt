//! Programs with their counters.
ghost use Rattle.std.specs.Prelude.{IfOk};
ghost use Rattle.go_threads.specs.Runnable.{IsRunnable};
ghost use Rattle.threads_rows.specs.Rows.{IsCountable};

use crate::programs::{crowd, failing, finishing, leaving, stuck};
use cov_cut::with_counts;
use go_ast::NoMemory;
use go_meaning::Program;
use go_samples::working;
use std::alloc::Global;

fn counted(alloc: Global, program: &Program) -> Result<Program, NoMemory>
    requires { IsCountable program.now }
    ensures { IfOk result IsRunnable }
{
    with_counts(alloc, program)
}

#[tactic(auto, using(crate::proofs::Countable::working_countable))]
pub(crate) fn counted_working(alloc: Global) -> Result<Program, NoMemory>
    ensures { IfOk result IsRunnable }
{
    counted(alloc, &working(alloc)?)
}

#[tactic(auto, using(crate::proofs::Countable::crowd_countable))]
pub(crate) fn counted_crowd(alloc: Global) -> Result<Program, NoMemory>
    ensures { IfOk result IsRunnable }
{
    counted(alloc, &crowd(alloc)?)
}

#[tactic(auto, using(crate::proofs::Countable::stuck_countable))]
pub(crate) fn counted_stuck(alloc: Global) -> Result<Program, NoMemory>
    ensures { IfOk result IsRunnable }
{
    counted(alloc, &stuck(alloc)?)
}

#[tactic(auto, using(crate::proofs::Countable::failing_countable))]
pub(crate) fn counted_failing(alloc: Global) -> Result<Program, NoMemory>
    ensures { IfOk result IsRunnable }
{
    counted(alloc, &failing(alloc)?)
}

#[tactic(auto, using(crate::proofs::Countable::leaving_countable))]
pub(crate) fn counted_leaving(alloc: Global) -> Result<Program, NoMemory>
    ensures { IfOk result IsRunnable }
{
    counted(alloc, &leaving(alloc)?)
}

#[tactic(auto, using(crate::proofs::Countable::finishing_countable))]
pub(crate) fn counted_finishing(alloc: Global) -> Result<Program, NoMemory>
    ensures { IfOk result IsRunnable }
{
    counted(alloc, &finishing(alloc)?)
}
