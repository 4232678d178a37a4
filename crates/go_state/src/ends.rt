//! Whether anything can happen, and the end that a history has.
ghost use Rattle.std.specs.Prelude.{◌≡◌, ◌<◌, ◌≤◌, length, is_some, Some, None, true, false};
ghost use Rattle.std.specs.Option.{MatchOption, option_or};
ghost use Rattle.go_meaning.specs.Histories.{IsDead, EndIs};
ghost use Rattle.go_meaning.specs.Readiness.{IsIdle};
ghost use Rattle.go_state.specs.Runs.{IsActive, step_of};

use crate::limits::Limits;
use go_meaning::{Config, End, Event, Program, Ready};
use go_step::ready;

// Whether a goroutine has a step or stands at a counter.
fn is_active(config: &Config, program: &Program, g: u16) -> bool
    requires some { 0 < g }
    requires there { g ≤ length config.now.goroutines }
    requires few { length config.now.goroutines ≤ 256 }
    ensures yes { result ≡ true → IsActive program.now config.now g }
    ensures no { result ≡ false → IsIdle program.now config.now g }
{
    match ready(config, program, g) {
        Ready::Step | Ready::Count(_) => true,
        Ready::Not | Ready::Over => false,
    }
}

/// A goroutine that has a step or stands at a counter, where there is one. That with the number `first` is tried first.
pub fn active(config: &Config, program: &Program, first: u16) -> Option<u16>
    requires { length config.now.goroutines ≤ 256 }
    ensures { MatchOption result (IsDead program.now config.now) (λ g. IsActive program.now config.now g) }
{
    let count = config.goroutines.as_slice().len();
    if 0 < first && first as usize <= count && is_active(config, program, first) {
        return Some(first);
    }
    for i in 0..count {
        let g = i as u16 + 1;
        if is_active(config, program, g) {
            return Some(g);
        }
    }
    None
}

/// The end of a history of so many steps of the program, where the configuration that it leads to has none of its own.
pub fn end_of(
    config: &Config,
    program: &Program,
    active: Option<u16>,
    steps: u32,
    limits: Limits,
) -> Option<End>
    requires { MatchOption active (IsDead program.now config.now) (λ g. IsActive program.now config.now g) }
    ensures { EndIs program.now limits.steps config.now steps (option_or config.now.end result) }
{
    if config.end.is_some() {
        None
    } else if active.is_none() {
        Some(End::Deadlock)
    } else if limits.steps <= steps {
        Some(End::StepLimit)
    } else {
        None
    }
}

/// Whether an event of so many program steps can come where the configuration has this end, and the history that one.
pub fn can_come(taken: u32, own: &Option<End>, other: &Option<End>) -> bool
    ensures yes { result ≡ true → 0 < taken → option_or own.now other.now ≡ None }
    ensures no { result ≡ false → (0 < taken) × (is_some (option_or own.now other.now) ≡ true) }
{
    taken == 0 || (own.is_none() && other.is_none())
}

/// How many steps of the program an event is.
pub fn steps_of(event: Event) -> u32
    ensures { result ≡ step_of event }
{
    match event {
        Event::Step { .. } => 1,
        Event::Count { .. } => 0,
    }
}
