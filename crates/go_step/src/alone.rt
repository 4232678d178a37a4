//! A step of one goroutine that needs no channel.
ghost use Rattle.std.specs.Prelude.{◌≡◌, true, Some, IfOk, slice_get};
ghost use Rattle.go_step.specs.Alone as spec;
ghost use Rattle.go_step.specs.Goroutines as goroutines;

use crate::beginning::begin;
use crate::goroutines::{act, empty_goroutine};
use crate::planning::plan;
use go_meaning::laws::acts_fit;
use go_meaning::{Act, Config, Goroutine, Program};
use std::alloc::{AllocError, Global};

// What the item at the head of a goroutine does, if it has begun and has one.
fn act_of_goroutine(
    alloc: Global,
    program: &Program,
    config: &Config,
    goroutine: &Goroutine,
) -> Result<Option<Act>, AllocError>
    ensures { IfOk result (λ o. o ≡ spec.act_of_head program.now config.now (Some goroutine.now)) }
{
    if goroutine.begin.is_some() {
        return Ok(None);
    }
    let Some(frame) = goroutine.frames.peek(0) else {
        return Ok(None);
    };
    let Some(item) = frame.control.peek(0) else {
        return Ok(None);
    };
    let slots = frame.slots.as_slice();
    Ok(Some(plan(alloc, program, config, item, slots, &frame.stack)?))
}

fn act_of_head(
    alloc: Global,
    program: &Program,
    config: &Config,
    index: usize,
) -> Result<Option<Act>, AllocError>
    ensures { IfOk result (λ o. o ≡ spec.act_of_head program.now config.now (slice_get config.now.goroutines index)) }
{
    match config.goroutines.get(index) {
        Some(goroutine) => act_of_goroutine(alloc, program, config, goroutine),
        None => Ok(None),
    }
}

fn has_begin(config: &Config, index: usize) -> bool
    ensures { result ≡ spec.has_begin (slice_get config.now.goroutines index) }
{
    match config.goroutines.get(index) {
        Some(goroutine) => goroutine.begin.is_some(),
        None => false,
    }
}

// The first step of a goroutine. An `Err` changes nothing.
#[tactic(auto, using(crate::proofs::GoingAlone::begin_leads))]
fn begin_at(
    alloc: Global,
    program: &Program,
    config: &mut Config,
    index: usize,
) -> Result<bool, AllocError>
    requires { spec.has_begin (slice_get config.old.goroutines index) ≡ true }
    ensures { goroutines.Leads (spec.alone_at program.now config.old index) config.old result config.new }
{
    let mut goroutine = config.goroutines.replace(index, empty_goroutine(alloc));
    let done = begin(alloc, program, &mut goroutine);
    let _hole = config.goroutines.replace(index, goroutine);
    match done {
        Ok(()) => Ok(true),
        Err(e) => Err(e),
    }
}

/// Whether a goroutine with this index has a step alone, where its head item needs no channel. `false` and an `Err` change
/// nothing.
#[tactic(auto, using(crate::proofs::GoingAlone::put_alone, crate::proofs::GoingAlone::none_alone, crate::proofs::GoingAlone::head_fits))]
pub fn goes_alone(
    alloc: Global,
    program: &Program,
    config: &mut Config,
    index: usize,
) -> Result<bool, AllocError>
    requires { spec.GoesAlone (slice_get config.old.goroutines index) }
    ensures { goroutines.Leads (spec.alone_at program.now config.old index) config.old result config.new }
{
    if has_begin(config, index) {
        return begin_at(alloc, program, config, index);
    }
    acts_fit();
    match act_of_head(alloc, program, config, index)? {
        Some(does) => act(alloc, program, config, index, does),
        None => Ok(false),
    }
}
