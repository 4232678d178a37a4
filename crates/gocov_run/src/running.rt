//! Running a module.
ghost use Rattle.std.specs.Prelude.{◌≡◌, IfOk, IfSome};
ghost use Rattle.go_load.specs.Loading.{AreRead};
ghost use Rattle.go_load.specs.Refusals.{Answers, CountsRead, IsNoRead};
ghost use Rattle.go_load.specs.Sources.{ReadsSources};
ghost use Rattle.go_meaning.specs.Serial.{IsSerial};
ghost use Rattle.gocov_run.specs.Running.{IsRunOfModule, IsSerialRun, RunsLoaded, RunsSerially};

use crate::checking::check_loaded;
use crate::ends::copy_end;
use crate::ran::Ran;
use crate::units::check_units;
use cov_outside::{Files, Sequence};
use go_ast::NoMemory;
use go_load::{LoadRefusal, Loaded, load};
use go_meaning::Program;
use go_state::{Limits, Run, serial};
use std::alloc::Global;

/// What a run that is over leaves.
fn ran_of(alloc: Global, run: &Run) -> Result<Ran, NoMemory>
    requires { IsSerial run.now.program run.now.limits.steps run.now.history }
    ensures { IfOk result (IsSerialRun run.now.program run.now.limits.steps) }
{
    let output = run.output();
    let Some(end) = run.end() else { unreachable!() };
    Ok(Ran {
        events: Sequence::from_vec(Vec::from_slice(alloc, run.events())?),
        output: Sequence::from_vec(Vec::from_slice(alloc, output)?),
        end: copy_end(end)?,
    })
}

/// Runs a program in the serial schedule.
fn run_program(alloc: Global, program: &Program, limits: Limits) -> Result<Ran, NoMemory>
    ensures { IfOk result (IsSerialRun program.now limits.steps) }
{
    let run = serial(alloc, program, limits)?;
    ran_of(alloc, &run)
}

/// Checks a module that was loaded, looks at the limit of its units, and runs its program.
#[tactic(auto, using(crate::proofs::Steps::checking_refused, crate::proofs::Steps::units_refused, crate::proofs::Steps::program_runs, crate::proofs::Steps::program_accepted))]
fn run_loaded(alloc: Global, loaded: &Loaded, limits: Limits) -> Result<Ran, LoadRefusal>
    requires { AreRead ReadsSources loaded.now }
    ensures told { Answers (λ ran. ran) result (RunsLoaded limits.steps loaded.now) }
    ensures no_read { IsNoRead result }
    ensures ran { IfOk result (IsRunOfModule limits.steps) }
{
    let program = check_loaded(alloc, loaded)?;
    check_units(alloc, loaded)?;
    Ok(run_program(alloc, &program, limits)?)
}

/// Loads the module in a directory, checks it, and runs its program in the serial schedule.
///
/// Else the first refusal: that of loading; then the first fault of checking, with the path and the place of its file, packages
/// in load order; then the limit of units.
#[tactic(auto, using(crate::proofs::Steps::loading_refused, crate::proofs::Steps::loaded_answers))]
pub fn run_module<F: Files>(
    alloc: Global,
    files: &mut F,
    root: &str,
    limits: Limits,
) -> Result<Ran, LoadRefusal>
    ensures told { IfSome (F.tree files.old) (λ t. Answers (λ ran. ran) result (RunsSerially t root.now limits.steps)) }
    ensures same { F.tree files.new ≡ F.tree files.old }
    ensures cause { CountsRead (F.read_faults files.old) (F.read_faults files.new) result }
    ensures puts { F.put_faults files.new ≡ F.put_faults files.old }
    ensures ran { IfOk result (IsRunOfModule limits.steps) }
{
    let loaded = load(alloc, files, root)?;
    run_loaded(alloc, &loaded, limits)
}
