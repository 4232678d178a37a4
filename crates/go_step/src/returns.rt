//! Calls, returns and panics: what they leave of a goroutine's frames.
#![tactic(auto, unfolding(go_meaning::specs::Moves::put))]

ghost use Rattle.std.specs.Prelude.{◌≡◌, [], ◌∷◌, ◌++◌, ◌<◌, ◌≤◌, length, drop, take, OnOk, OnErr, Some};
ghost use Rattle.go_meaning.specs.Moves as moves;
ghost use Rattle.go_meaning.specs.declared.act.Act.TheVariants as acts;
ghost use Rattle.go_step.specs.Puts as puts;
ghost use Rattle.go_step.specs.Calls as spec;

use crate::calls::{blank, push_call};
use crate::deferred::run_deferred;
use crate::frames::empty_frame;
use crate::functions::params_of;
use go_ast::Text;
use go_meaning::{Config, End, Frame, Item, Program, Stack};
use std::alloc::{AllocError, Global};

// How many frames a goroutine may have.
pub const STACK_LIMIT: usize = 10000;

/// Whether a function could be called: its arguments are there. `false` and an `Err` change nothing.
#[tactic(auto, using(crate::proofs::Calling::call_leaves), unfolding(go_meaning::specs::Moves::put))]
pub fn calls(
    alloc: Global,
    program: &Program,
    config: &mut Config,
    index: usize,
    frames: &mut Stack<Frame>,
    function: u64,
) -> Result<bool, AllocError>
    ensures { puts.PutsFrames program.now config.old index frames.old (acts.Calls function) result config.new frames.new }
{
    let Some(top) = frames.peek(0) else {
        return Ok(false);
    };
    let count = params_of(program, function);
    if count > top.stack.len() as u64 {
        return Ok(false);
    }
    if frames.len() >= STACK_LIMIT {
        config.end = Some(End::StackLimit);
        return Ok(true);
    }
    let new = blank(alloc, program, function, count as usize, false)?;
    push_call(alloc, frames, new, count as usize)?;
    Ok(true)
}

// The frame that runs goes, and its caller takes so many results, unless they are dropped. An `Err` changes nothing.
#[tactic(auto, using(crate::proofs::Restored::restored), unfolding(go_meaning::specs::Moves::put))]
fn deliver(alloc: Global, frames: &mut Stack<Frame>, count: usize) -> Result<(), AllocError>
    requires values { spec.HasValues count frames.old }
    requires caller { 1 < length frames.old }
    ensures ok { OnOk result (spec.DeliversFrames count frames.old frames.new) }
    ensures err { OnErr result (frames.new ≡ frames.old) }
{
    let mut callee = frames.swap_top(empty_frame(alloc));
    let mut caller = frames.swap_at(1, empty_frame(alloc));
    let kept = if callee.drops { 0 } else { count };
    let done = caller.stack.move_top(alloc, &mut callee.stack, kept);
    let _hole = frames.swap_at(1, caller);
    match done {
        Ok(()) => {
            frames.drop_top(1);
            Ok(())
        }
        Err(e) => {
            let _hole = frames.swap_top(callee);
            Err(e)
        }
    }
}

// A goroutine is over. If it is goroutine 1, the run is.
fn over(config: &mut Config, index: usize)
    ensures { config.new ≡ moves.over index config.old }
{
    if index == 0 {
        config.end = Some(End::Returned);
    }
}

/// What a return does: the deferred call that was added last is run, or the frame goes with so many results. An `Err` changes
/// nothing.
#[tactic(auto, using(crate::proofs::Returning::return_runs, crate::proofs::Returning::return_delivers, crate::proofs::Returning::return_ends))]
pub fn returns(
    alloc: Global,
    program: &Program,
    config: &mut Config,
    index: usize,
    frames: &mut Stack<Frame>,
    count: usize,
) -> Result<(), AllocError>
    requires { spec.HasValues count frames.old }
    ensures ok { OnOk result (puts.put_frames program.now config.old index frames.old (acts.Returns count) ≡ Some (moves.moved config.new (moves.running frames.new))) }
    ensures same { OnErr result (config.new ≡ config.old) }
    ensures err { OnErr result (frames.new ≡ frames.old) }
{
    let Some(top) = frames.peek(0) else {
        unreachable!();
    };
    if top.deferred.len() > 0 {
        return run_deferred(alloc, program, config, frames);
    }
    if frames.len() > 1 {
        return deliver(alloc, frames, count);
    }
    frames.clear();
    over(config, index);
    Ok(())
}

// An item takes the place of all. An `Err` changes nothing.
fn only(control: &mut Stack<Item>, item: Item) -> Result<(), AllocError>
    ensures ok { OnOk result (control.new ≡ item ∷ []) }
    ensures err { OnErr result (control.new ≡ control.old) }
{
    let len = control.len();
    if len == 0 {
        return control.push(item);
    }
    control.reduce(len, item);
    Ok(())
}

// The frame that runs goes, and its caller panics. An `Err` changes nothing.
#[tactic(auto, using(crate::proofs::Restored::restored), unfolding(go_meaning::specs::Moves::put))]
fn unwind_caller(alloc: Global, frames: &mut Stack<Frame>, message: Text) -> Result<(), AllocError>
    requires { 1 < length frames.old }
    ensures ok { OnOk result (spec.UnwindsFrames message frames.old frames.new) }
    ensures err { OnErr result (frames.new ≡ frames.old) }
{
    let mut caller = frames.swap_at(1, empty_frame(alloc));
    let done = only(&mut caller.control, Item::Unwind(message));
    let _hole = frames.swap_at(1, caller);
    done?;
    frames.drop_top(1);
    Ok(())
}

/// What a panic does: the deferred call that was added last is run, or the frame goes. An `Err` changes nothing.
#[tactic(auto, using(crate::proofs::Returning::unwind_runs, crate::proofs::Returning::unwind_goes_on, crate::proofs::Returning::unwind_ends))]
pub fn unwinds(
    alloc: Global,
    program: &Program,
    config: &mut Config,
    index: usize,
    frames: &mut Stack<Frame>,
    message: Text,
) -> Result<(), AllocError>
    requires { 0 < length frames.old }
    ensures ok { OnOk result (puts.put_frames program.now config.old index frames.old (acts.Unwinds message) ≡ Some (moves.moved config.new (moves.running frames.new))) }
    ensures same { OnErr result (config.new ≡ config.old) }
    ensures err { OnErr result (frames.new ≡ frames.old) }
{
    let Some(top) = frames.peek(0) else {
        unreachable!();
    };
    if top.deferred.len() > 0 {
        return run_deferred(alloc, program, config, frames);
    }
    if frames.len() > 1 {
        return unwind_caller(alloc, frames, message);
    }
    frames.clear();
    config.end = Some(End::Panic(message));
    Ok(())
}
