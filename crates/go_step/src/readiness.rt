//! Whether a goroutine is ready, and the event that it takes.
ghost use Rattle.std.specs.Prelude.{◌≡◌, ◌<◌, ◌≤◌, length, slice_get};
ghost use Rattle.go_meaning.specs.Readiness as readiness;
ghost use Rattle.go_meaning.specs.Steps as steps;
ghost use Rattle.go_step.specs.FirstSteps as spec;

use crate::beginning::due;
use crate::heads::{count_of_head, way_of_head};
use crate::partners::{goes, partner_of};
use go_meaning::{Config, Event, Program, Ready};

fn due_of(config: &Config, program: &Program, index: usize) -> Option<u32>
    ensures { result ≡ steps.due program.now (slice_get config.now.goroutines index) }
{
    match config.goroutines.get(index) {
        Some(goroutine) => due(program, goroutine),
        None => None,
    }
}

fn is_over(config: &Config, index: usize) -> bool
    ensures { result ≡ readiness.is_over (slice_get config.now.goroutines index) }
{
    match config.goroutines.get(index) {
        Some(goroutine) => goroutine.begin.is_none() && goroutine.frames.len() == 0,
        None => true,
    }
}

// The first step of a goroutine in one clause of its `select`, from 1, or with 0.
fn event_of(config: &Config, program: &Program, g: u16, case: u16) -> Option<Event>
    requires some { 0 < g }
    requires few { length config.now.goroutines ≤ 256 }
    ensures { spec.IsFirstOfCase program.now config.now g case result }
{
    let index = g as usize - 1;
    if goes(config, program, index, case) {
        return Some(Event::Step {
            goroutine: g,
            case,
            partner: 0,
            partner_case: 0,
        });
    }
    let way = way_of_head(config, program, index, case);
    match partner_of(config, program, index, way) {
        Some(partner) => Some(Event::Step {
            goroutine: g,
            case,
            partner: partner.index + 1,
            partner_case: partner.case,
        }),
        None => None,
    }
}

// The first step of a goroutine.
fn first_step(config: &Config, program: &Program, g: u16) -> Option<Event>
    requires some { 0 < g }
    requires few { length config.now.goroutines ≤ 256 }
    ensures { spec.IsFirstStep program.now config.now g result }
{
    let count = count_of_head(config, program, g as usize - 1);
    for case in 0..count {
        if let Some(event) = event_of(config, program, g, case) {
            return Some(event);
        }
    }
    None
}

/// The event that goroutine `g` takes, which is numbered from 1. Of several steps it is that with the least clause, partner
/// and clause of the partner, in this order.
pub fn first_event(config: &Config, program: &Program, g: u16) -> Option<Event>
    requires some { 0 < g }
    requires there { g ≤ length config.now.goroutines }
    requires few { length config.now.goroutines ≤ 256 }
    ensures { readiness.IsFirst program.now config.now g result }
{
    match due_of(config, program, g as usize - 1) {
        Some(unit) => Some(Event::Count { goroutine: g, unit }),
        None => first_step(config, program, g),
    }
}

/// What goroutine `g`, which is numbered from 1, can do.
pub fn ready(config: &Config, program: &Program, g: u16) -> Ready
    requires some { 0 < g }
    requires there { g ≤ length config.now.goroutines }
    requires few { length config.now.goroutines ≤ 256 }
    ensures { readiness.IsReady program.now config.now g result }
{
    match first_event(config, program, g) {
        Some(Event::Count { unit, .. }) => Ready::Count(unit),
        Some(Event::Step { .. }) => Ready::Step,
        None => {
            if is_over(config, g as usize - 1) {
                Ready::Over
            } else {
                Ready::Not
            }
        }
    }
}
