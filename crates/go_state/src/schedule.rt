//! The run of the serial schedule.
ghost use Rattle.std.specs.Prelude.{◌≡◌, ◌+◌, ◌<◌, ◌≤◌, [], ◌∷◌, ◌++◌, length, Some, None, IfOk, IfSome, OnOk, false, true};
ghost use Rattle.go_meaning.specs.Entries.{count_at};
ghost use Rattle.go_meaning.specs.Histories.{replay};
ghost use Rattle.go_meaning.specs.Serial.{IsSerial};
ghost use Rattle.go_meaning.specs.Steps as steps;
ghost use Rattle.go_meaning.specs.Steps.{numbered};
ghost use Rattle.go_state.specs.Runs.{IsFresh};
ghost use Rattle.go_state.specs.Schedule.{Extends, IsNumber, dues};

use crate::limits::Limits;
use crate::passing::pass;
use crate::run::Run;
use crate::turns::{advance, turn};
use go_ast::NoMemory;
use go_meaning::{Config, Event, Program, Ready};
use go_step::ready;
use std::alloc::Global;

// The unit at whose counter a goroutine stands.
fn due(config: &Config, program: &Program, goroutine: u16) -> Option<u32>
    requires some { 0 < goroutine }
    requires there { goroutine ≤ length config.now.goroutines }
    requires few { length config.now.goroutines ≤ 256 }
    ensures { result ≡ steps.due program.now (numbered config.now goroutine) }
{
    match ready(config, program, goroutine) {
        Ready::Count(unit) => Some(unit),
        Ready::Step => None,
        Ready::Not => None,
        Ready::Over => None,
    }
}

// Takes the counter step of a goroutine, if it stands at a counter.
fn count(run: &mut Run, program: &Program, goroutine: u16) -> Result<(), NoMemory>
    requires same { program.now ≡ run.old.program }
    requires number { IsNumber run.old goroutine }
    ensures extends { OnOk result (Extends run.old run.new) }
    ensures events { OnOk result (IfSome (replay run.old.program run.old.history) (λ c. run.new.history ≡ run.old.history ++ count_at (steps.due run.old.program (numbered c goroutine)) goroutine)) }
{
    run.known();
    match due(run.config(), program, goroutine) {
        None => Ok(()),
        Some(unit) => advance(run, program, Event::Count { goroutine, unit }),
    }
}

// Takes the counter step of each goroutine that stands at a counter, in the order of their numbers.
fn count_rest(run: &mut Run, program: &Program) -> Result<(), NoMemory>
    requires { program.now ≡ run.old.program }
    ensures extends { OnOk result (Extends run.old run.new) }
    ensures events { OnOk result (run.new.history ≡ run.old.history ++ dues run.old) }
{
    run.known();
    for i in 0..run.goroutines() {
        count(run, program, i as u16 + 1)?;
    }
    Ok(())
}

/// The run of the serial schedule, up to its rest.
///
/// Goroutine 1 has the first turn. In its turn a goroutine takes up to 1,000 steps of the program, and of several that are
/// possible the least by clause, partner and the partner's clause; then the turn goes to the next greater number, or else
/// the least, of a goroutine that isn't over. Counter steps are taken too and aren't counted. After an end each goroutine
/// that stands at a counter takes its counter step, in the order of their numbers.
pub fn serial(alloc: Global, program: &Program, limits: Limits) -> Result<Run, NoMemory>
    ensures started { IfOk result (λ run. IsFresh program.now limits run) }
    ensures history { IfOk result (λ run. IsSerial program.now limits.steps run.history) }
{
    let mut run = Run::start(alloc, program, limits)?;
    run.reserve()?;
    let mut now = 1;
    let mut taken = turn(&mut run, program, now)?;
    while run.end().is_none() {
        now = pass(&run, program, now, taken);
        taken = turn(&mut run, program, now)?;
    }
    count_rest(&mut run, program)?;
    Ok(run)
}
