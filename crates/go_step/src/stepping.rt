//! One step of a run.
ghost use Rattle.std.specs.Prelude.{◌≡◌, ◌≢◌, ◌<◌, ◌≤◌, ◌-◌, length, Some, None, Ok, Err, OnOk, OnErr, slice_get, is_some};
ghost use Rattle.go_meaning.specs.Histories.{IsCount};
ghost use Rattle.go_meaning.specs.Steps as steps;
ghost use Rattle.go_meaning.specs.declared.event.Event.TheVariants as events;
ghost use Rattle.go_step.specs.Goroutines as goroutines;
ghost use Rattle.go_step.specs.Parts as parts;
ghost use Rattle.go_step.specs.Handing as spec;
ghost use Rattle.go_step.specs.declared.parts.Part.TheVariants as part;
ghost use Rattle.go_step.specs.declared.stepping.StepRefusal.TheVariants as refusals;

use crate::alone::goes_alone;
use crate::beginning::counts;
use crate::clauses::part_at;
use crate::exchanges::exchanges;
use crate::frames::{empty_frame, replaces};
use crate::goroutines::empty_goroutine;
use crate::lone::part_goes;
use crate::partners::goes;
use crate::parts::{Entry, Part};
use go_meaning::{Config, Event, Frame, Item, Program, Stack};
use std::alloc::{AllocError, Global};

/// Why a step isn't taken.
#[derive(Clone, Copy, Debug, PartialEq, Eq)]
pub enum StepRefusal {
    /// There is no such step.
    NotReady,
    NoMemory,
}

impl From<AllocError> for StepRefusal {
    ghost from_gives = { λ _ e. e ≡ refusals.NoMemory };

    fn from(_e: AllocError) -> StepRefusal {
        StepRefusal::NoMemory
    }
}

// Whether the head item of a goroutine that has begun waits for a channel.
fn waits(config: &Config, index: usize) -> bool
    ensures { result ≡ parts.waits (slice_get config.now.goroutines index) }
{
    let Some(goroutine) = config.goroutines.get(index) else {
        return false;
    };
    if goroutine.begin.is_some() {
        return false;
    }
    let Some(frame) = goroutine.frames.peek(0) else {
        return false;
    };
    match frame.control.peek(0) {
        Some(item) => matches!(
            item,
            Item::Send | Item::Recv | Item::RecvOk | Item::Pull(_, _) | Item::Pick(_, _)
        ),
        None => false,
    }
}

// A step of a goroutine that does nothing with a channel, or waits for one. `false` and an `Err` change nothing.
#[tactic(auto, using(crate::proofs::LoneSteps::later_none, crate::proofs::LoneSteps::waiting_none, crate::proofs::LoneSteps::not_waiting, crate::proofs::LoneSteps::at_none))]
fn plain_goes(
    alloc: Global,
    program: &Program,
    config: &mut Config,
    index: usize,
    case: u16,
) -> Result<bool, AllocError>
    requires { parts.goroutine_part program.now case (slice_get config.old.goroutines index) ≡ None }
    ensures { goroutines.Leads (spec.alone_by program.now config.old index case) config.old result config.new }
{
    if case != 0 || waits(config, index) {
        return Ok(false);
    }
    goes_alone(alloc, program, config, index)
}

fn enter_frames(alloc: Global, frames: &mut Stack<Frame>, entry: Entry) -> Result<(), AllocError>
    requires { parts.FramesFit (part.Default entry) frames.old }
    ensures ok { OnOk result (frames.new ≡ spec.gone_in entry.pops entry.items frames.old) }
    ensures err { OnErr result (frames.new ≡ frames.old) }
{
    let mut frame = frames.swap_top(empty_frame(alloc));
    match replaces(&mut frame, entry.pops as u64, entry.items) {
        Ok(()) => {
            let _hole = frames.swap_top(frame);
            Ok(())
        }
        Err(e) => {
            let _hole = frames.swap_top(frame);
            Err(e)
        }
    }
}

// The default clause of a goroutine is taken. An `Err` changes nothing.
fn enter(alloc: Global, config: &mut Config, index: usize, entry: Entry) -> Result<(), AllocError>
    requires { parts.GoroutineFits (part.Default entry) (slice_get config.old.goroutines index) }
    ensures ok { OnOk result (config.new ≡ spec.entered config.old index entry) }
    ensures err { OnErr result (config.new ≡ config.old) }
{
    let mut goroutine = config.goroutines.replace(index, empty_goroutine(alloc));
    match enter_frames(alloc, &mut goroutine.frames, entry) {
        Ok(()) => {
            let _hole = config.goroutines.replace(index, goroutine);
            Ok(())
        }
        Err(e) => {
            let _hole = config.goroutines.replace(index, goroutine);
            Err(e)
        }
    }
}

// Whether no other clause of a `select` is ready; then its default clause is taken. `false` and an `Err` change nothing.
#[tactic(auto, using(crate::proofs::LoneSteps::default_alone, crate::proofs::LoneSteps::no_step, crate::proofs::Sided::part_fits))]
fn default_goes(
    alloc: Global,
    program: &Program,
    config: &mut Config,
    index: usize,
    case: u16,
    entry: Entry,
) -> Result<bool, AllocError>
    requires default { parts.goroutine_part program.now case (slice_get config.old.goroutines index) ≡ Some (part.Default entry) }
    requires few { length config.old.goroutines ≤ 256 }
    ensures { goroutines.Leads (spec.alone_by program.now config.old index case) config.old result config.new }
{
    if !goes(config, program, index, case) {
        return Ok(false);
    }
    enter(alloc, config, index, entry)?;
    Ok(true)
}

// Whether a goroutine has a step without a partner, by its clause, from 1, or 0. `false` and an `Err` change nothing.
#[tactic(auto, using(crate::proofs::LoneSteps::part_alone, crate::proofs::Sided::part_fits))]
fn goes_by_itself(
    alloc: Global,
    program: &Program,
    config: &mut Config,
    index: usize,
    case: u16,
) -> Result<bool, AllocError>
    requires few { length config.old.goroutines ≤ 256 }
    ensures { goroutines.Leads (spec.alone_by program.now config.old index case) config.old result config.new }
{
    match part_at(alloc, program, config, index, case)? {
        None => plain_goes(alloc, program, config, index, case),
        Some(Part::Default(entry)) => default_goes(alloc, program, config, index, case, entry),
        Some(Part::Offers(offer)) => part_goes(alloc, config, index, Part::Offers(offer)),
        Some(Part::Wants(want)) => part_goes(alloc, config, index, Part::Wants(want)),
    }
}

// Whether there is a step of the program: of a goroutine, its clause, its partner and the partner's clause, from 1, or 0.
// `false` and an `Err` change nothing.
#[tactic(auto, using(crate::proofs::Events::of_none, crate::proofs::Events::of_itself, crate::proofs::Events::of_no_partner, crate::proofs::Events::of_one, crate::proofs::Events::of_both))]
fn moves(
    alloc: Global,
    program: &Program,
    config: &mut Config,
    goroutine: u16,
    case: u16,
    partner: u16,
    partner_case: u16,
) -> Result<bool, AllocError>
    requires few { length config.old.goroutines ≤ 256 }
    ensures { goroutines.Leads (steps.step program.now config.old (events.Step goroutine case partner partner_case)) config.old result config.new }
{
    if goroutine == 0 || goroutine == partner {
        return Ok(false);
    }
    let index = goroutine as usize - 1;
    if partner == 0 {
        if partner_case != 0 {
            return Ok(false);
        }
        return goes_by_itself(alloc, program, config, index, case);
    }
    let other = partner as usize - 1;
    exchanges(alloc, program, config, index, case, other, partner_case)
}

// Whether there is a counter step of a goroutine. It takes no memory, and `false` changes nothing.
#[tactic(auto, using(crate::proofs::Events::no_count, crate::proofs::Events::of_count))]
fn passes(alloc: Global, program: &Program, config: &mut Config, goroutine: u16, unit: u32) -> bool
    ensures { goroutines.Leads (steps.step program.now config.old (events.Count goroutine unit)) config.old (Ok result) config.new }
{
    if goroutine == 0 {
        return false;
    }
    counts(alloc, program, config, goroutine as usize - 1, unit)
}

/// Takes one step of a run: a step of the program, or a counter step. An `Err` changes nothing. A counter step takes no
/// memory.
pub fn step(
    alloc: Global,
    config: &mut Config,
    program: &Program,
    event: Event,
) -> Result<(), StepRefusal>
    requires few { length config.old.goroutines ≤ 256 }
    ensures ok { OnOk result (steps.step program.now config.old event ≡ Some config.new) }
    ensures same { OnErr result (config.new ≡ config.old) }
    ensures not_ready { result ≡ Err refusals.NotReady → steps.step program.now config.old event ≡ None }
    ensures count { IsCount event → result ≢ Err refusals.NoMemory }
{
    let done = match event {
        Event::Step {
            goroutine,
            case,
            partner,
            partner_case,
        } => moves(
            alloc,
            program,
            config,
            goroutine,
            case,
            partner,
            partner_case,
        )?,
        Event::Count { goroutine, unit } => passes(alloc, program, config, goroutine, unit),
    };
    if done {
        Ok(())
    } else {
        Err(StepRefusal::NotReady)
    }
}
