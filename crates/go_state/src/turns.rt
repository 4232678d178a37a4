//! Turns of the serial schedule.
ghost use Rattle.std.specs.Prelude.{◌≡◌, ◌+◌, ◌<◌, ◌≤◌, ◌⊎◌, [], ◌∷◌, ◌++◌, length, Some, None, IfOk, IfSome, OnOk, MatchOption};
ghost use Rattle.go_meaning.specs.Readiness.{IsIdle};
ghost use Rattle.go_meaning.specs.Serial.{IsNext};
ghost use Rattle.go_meaning.specs.Histories.{IsHistory};
ghost use Rattle.go_state.specs.Remaining.{remaining};
ghost use Rattle.go_state.specs.Runs.{goroutines_after};
ghost use Rattle.go_state.specs.Schedule.{Extends, IsAt, IsIdleIn, EndsBy, CanPass, IsNumber};

use crate::ends::steps_of;
use crate::run::Run;
use go_ast::NoMemory;
use go_meaning::laws::goroutines;
use go_meaning::{Config, Event, Program};
use go_step::{StepRefusal, first_event};
use std::alloc::AllocError;

/// How many steps of the program a goroutine takes in its turn at most.
const TURN: u32 = 1000;

/// Takes a step that can be taken.
pub fn advance(run: &mut Run, program: &Program, event: Event) -> Result<(), NoMemory>
    requires same { program.now ≡ run.old.program }
    requires can { IsHistory run.old.program run.old.limits.steps (run.old.history ++ event ∷ []) }
    ensures { OnOk result ((Extends run.old run.new) × (run.new.history ≡ run.old.history ++ event ∷ [])) }
{
    match run.apply(program, event) {
        Ok(()) => Ok(()),
        Err(StepRefusal::NoMemory) => Err(AllocError),
        Err(StepRefusal::NotReady) => unreachable!(),
    }
}

// Takes the next event of a goroutine in its turn, and tells of how many steps of the program it is; nothing where the
// goroutine has none.
fn take(run: &mut Run, program: &Program, now: u16, taken: u32) -> Result<Option<u32>, NoMemory>
    requires same { program.now ≡ run.old.program }
    requires number { IsNumber run.old now }
    requires at { IsAt run.old now taken }
    requires within { taken < 1000 }
    requires goes { EndsBy run.old None }
    ensures extends { IfOk result (λ o. Extends run.old run.new) }
    ensures idle { IfOk result (λ o. MatchOption o (IsIdleIn run.new now × IsAt run.new now taken × (run.new ≡ run.old)) (λ t. IsAt run.new now (taken + t) × (t ≤ 1) × (remaining run.new < remaining run.old))) }
    ensures number { IfOk result (λ o. IsNumber run.new now) }
{
    goroutines();
    run.known();
    match first_event(run.config(), program, now) {
        None => Ok(None),
        Some(event) => {
            advance(run, program, event)?;
            Ok(Some(steps_of(event)))
        }
    }
}

/// A goroutine's turn: it takes steps until it has none, the program has an end, or it has taken as many as a turn has.
/// It tells how many it has taken.
pub fn turn(run: &mut Run, program: &Program, now: u16) -> Result<u32, NoMemory>
    requires same { program.now ≡ run.old.program }
    requires number { IsNumber run.old now }
    requires at { IsAt run.old now 0 }
    ensures extends { IfOk result (λ taken. Extends run.old run.new) }
    ensures at { IfOk result (λ taken. IsAt run.new now taken) }
    ensures passes { IfOk result (λ taken. EndsBy run.new None → CanPass run.new now taken) }
    ensures number { IfOk result (λ taken. IsNumber run.new now) }
    ensures less { IfOk result (λ taken. EndsBy run.old None → ¬ IsIdleIn run.old now → remaining run.new < remaining run.old) }
{
    let mut taken = 0;
    while taken < TURN && run.end().is_none() {
        match take(run, program, now, taken)? {
            None => return Ok(taken),
            Some(steps) => taken += steps,
        }
    }
    Ok(taken)
}
