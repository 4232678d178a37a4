//! Whose turn comes next.
ghost use Rattle.std.specs.Prelude.{◌≡◌, ◌<◌, ◌≤◌, ℕ, length, true, false, Some, None, MatchOption};
ghost use Rattle.go_meaning.specs.Readiness as readiness;
ghost use Rattle.go_meaning.specs.Serial.{IsNext};
ghost use Rattle.go_meaning.specs.Steps.{numbered};
ghost use Rattle.go_state.specs.Schedule.{IsAt, IsIdleIn, EndsBy, CanPass, IsNumber, IsLeastAfter, AllOverAfter};

use crate::ends::active;
use crate::run::Run;
use go_meaning::{Config, Goroutine, Program};
use go_step::first_event;

fn is_over(goroutine: &Goroutine) -> bool
    ensures { result ≡ readiness.is_over (Some goroutine.now) }
{
    match &goroutine.begin {
        Some(_) => false,
        None => goroutine.frames.len() == 0,
    }
}

// The least number above another of a goroutine that isn't over.
fn least(config: &Config, above: usize) -> Option<u16>
    requires { length config.now.goroutines ≤ 256 }
    ensures { MatchOption result (AllOverAfter config.now above) (λ g. IsLeastAfter config.now above g) }
{
    let goroutines = config.goroutines.as_slice();
    for i in above..goroutines.len() {
        if !is_over(&goroutines[i]) {
            return Some(i as u16 + 1);
        }
    }
    None
}

// The goroutine whose turn comes after one's.
fn next(config: &Config, now: u16) -> u16
    requires few { length config.now.goroutines ≤ 256 }
    requires lives { (g : ℕ) × (readiness.is_over (numbered config.now g) ≡ false) }
    ensures next { IsNext config.now now result }
    ensures number { (0 < result) × (result ≤ length config.now.goroutines) }
{
    match least(config, now as usize) {
        Some(g) => g,
        None => match least(config, 0) {
            Some(g) => g,
            None => unreachable!(),
        },
    }
}

/// The goroutine to which the turn is given on, past those that have nothing to do.
pub fn pass(run: &Run, program: &Program, now: u16, taken: u32) -> u16
    requires same { program.now ≡ run.now.program }
    requires number { IsNumber run.now now }
    requires at { IsAt run.now now taken }
    requires passes { CanPass run.now now taken }
    requires goes { EndsBy run.now None }
    ensures at { IsAt run.now result 0 }
    ensures ready { ¬ IsIdleIn run.now result }
    ensures number { IsNumber run.now result }
{
    run.known();
    let config = run.config();
    let Some(target) = active(config, program, now) else {
        unreachable!()
    };
    let mut at = next(config, now);
    while at != target && first_event(config, program, at).is_none() {
        at = next(config, at);
    }
    at
}
