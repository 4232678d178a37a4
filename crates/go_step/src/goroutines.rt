//! What an act leaves of its goroutine, and a goroutine's first step.
ghost use Rattle.std.specs.Prelude.{◌≡◌, [], ◌∷◌, ◌<◌, ◌≤◌, length, slice_get, Some, OnOk, OnErr};
ghost use Rattle.go_meaning.specs.Moves as moves;
ghost use Rattle.go_meaning.specs.declared.act.Act.TheVariants as acts;
ghost use Rattle.go_step.specs.Puts as puts;
ghost use Rattle.go_step.specs.Calls as calls_spec;
ghost use Rattle.go_step.specs.Goroutines as spec;

use crate::committing::{frame_act, world_act};
use crate::frames::empty_frame;
use crate::functions::params_of;
use crate::returns::{calls, returns, unwinds};
use go_meaning::{Act, Call, Config, End, Frame, Goroutine, Program, Stack};
use std::alloc::{AllocError, Global};

/// How many goroutines there may be.
pub const GOROUTINE_LIMIT: usize = 256;

/// A goroutine with nothing in it. It takes no memory.
pub(crate) fn empty_goroutine(alloc: Global) -> Goroutine {
    Goroutine {
        begin: None,
        frames: Stack::new(alloc),
    }
}

// A further goroutine takes so many values off the stack of the frame that runs, whose head item goes. An `Err` changes nothing.
#[tactic(auto, using(crate::proofs::Spawning::last_set))]
fn push_goroutine(
    alloc: Global,
    config: &mut Config,
    frames: &mut Stack<Frame>,
    function: u64,
    count: usize,
) -> Result<(), AllocError>
    requires { calls_spec.HasValues count frames.old }
    ensures born { OnOk result (spec.BearsGoroutine function count config.old frames.old config.new) }
    ensures ok { OnOk result (spec.SpawnsFrames count frames.old frames.new) }
    ensures same { OnErr result (config.new ≡ config.old) }
    ensures err { OnErr result (frames.new ≡ frames.old) }
{
    let len = config.goroutines.len();
    config.goroutines.push(empty_goroutine(alloc))?;
    let mut frame = frames.swap_top(empty_frame(alloc));
    match frame.stack.take_off(alloc, count) {
        Ok(args) => {
            frame.control.drop_top(1);
            let _hole = frames.swap_top(frame);
            let born = Goroutine {
                begin: Some(Call { function, args }),
                frames: Stack::new(alloc),
            };
            let _hole = config.goroutines.replace(len, born);
            Ok(())
        }
        Err(e) => {
            let _hole = frames.swap_top(frame);
            config.goroutines.cut(len);
            Err(e)
        }
    }
}

/// Whether a goroutine could be started: its arguments are there. `false` and an `Err` change nothing.
#[tactic(auto, unfolding(go_meaning::specs::Moves::put))]
fn spawns(
    alloc: Global,
    program: &Program,
    config: &mut Config,
    index: usize,
    frames: &mut Stack<Frame>,
    function: u64,
) -> Result<bool, AllocError>
    ensures { spec.JoinsFrames program.now config.old index frames.old (acts.Spawns function) result config.new frames.new }
{
    let Some(top) = frames.peek(0) else {
        return Ok(false);
    };
    let count = params_of(program, function);
    if count > top.stack.len() as u64 {
        return Ok(false);
    }
    if config.goroutines.len() >= GOROUTINE_LIMIT {
        config.end = Some(End::GoroutineLimit);
        return Ok(true);
    }
    push_goroutine(alloc, config, frames, function, count as usize)?;
    Ok(true)
}

fn changes_world(act: &Act) -> bool
    requires { puts.IsOfOneFrame act.now }
    ensures { puts.SortsAct act.now result }
{
    matches!(
        act,
        Act::Stops(_)
            | Act::Ends(_, _)
            | Act::Prints(_, _)
            | Act::Locks(_, _)
            | Act::Sets { .. }
            | Act::Makes { .. }
            | Act::Closes(_)
    )
}

// Whether an act of one frame has a step. `false` and an `Err` change nothing.
fn top_act(
    alloc: Global,
    program: &Program,
    config: &mut Config,
    index: usize,
    frames: &mut Stack<Frame>,
    act: Act,
) -> Result<bool, AllocError>
    requires kind { puts.IsOfOneFrame act }
    requires fits { spec.FitsFrames act config.old frames.old }
    ensures { puts.PutsFrames program.now config.old index frames.old act result config.new frames.new }
{
    let _index = index;
    let mut frame = frames.swap_top(empty_frame(alloc));
    let done = if changes_world(&act) {
        world_act(alloc, program, config, &mut frame, act)
    } else {
        frame_act(alloc, program, config, &mut frame, act)
    };
    let _hole = frames.swap_top(frame);
    done
}

// Whether an act that starts no goroutine has a step of the goroutine with these frames. `false` and an `Err` change nothing.
#[tactic(auto, unfolding(go_meaning::specs::Moves::put, go_meaning::specs::Fitting::IsFitting))]
fn settled_act(
    alloc: Global,
    program: &Program,
    config: &mut Config,
    index: usize,
    frames: &mut Stack<Frame>,
    act: Act,
) -> Result<bool, AllocError>
    requires kind { puts.StartsNone act }
    requires fits { spec.FitsFrames act config.old frames.old }
    ensures { puts.PutsFrames program.now config.old index frames.old act result config.new frames.new }
{
    match act {
        Act::Calls(function) => calls(alloc, program, config, index, frames, function),
        Act::Returns(count) => {
            returns(alloc, program, config, index, frames, count as usize)?;
            Ok(true)
        }
        Act::Unwinds(message) => {
            unwinds(alloc, program, config, index, frames, message)?;
            Ok(true)
        }
        Act::Spawns(_) => unreachable!(),
        act => top_act(alloc, program, config, index, frames, act),
    }
}

// Whether an act has a step of the goroutine with these frames. `false` and an `Err` change nothing.
fn frames_act(
    alloc: Global,
    program: &Program,
    config: &mut Config,
    index: usize,
    frames: &mut Stack<Frame>,
    act: Act,
) -> Result<bool, AllocError>
    requires { spec.FitsFrames act config.old frames.old }
    ensures { spec.JoinsFrames program.now config.old index frames.old act result config.new frames.new }
{
    match act {
        Act::Spawns(function) => spawns(alloc, program, config, index, frames, function),
        act => settled_act(alloc, program, config, index, frames, act),
    }
}

/// Whether an act has a step of the goroutine with this index. `false` and an `Err` change nothing.
pub fn act(
    alloc: Global,
    program: &Program,
    config: &mut Config,
    index: usize,
    act: Act,
) -> Result<bool, AllocError>
    requires { spec.FitsGoroutine act config.old (slice_get config.old.goroutines index) }
    ensures { spec.Leads (spec.put_at program.now config.old index act) config.old result config.new }
{
    let mut goroutine = config.goroutines.replace(index, empty_goroutine(alloc));
    let done = frames_act(alloc, program, config, index, &mut goroutine.frames, act);
    let _hole = config.goroutines.replace(index, goroutine);
    done
}
