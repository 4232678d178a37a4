//! Deferred calls that are run.
ghost use Rattle.std.specs.Prelude.{◌≡◌, ◌≤◌, length, Some, OnOk, OnErr};
ghost use Rattle.go_meaning.specs.Moves as moves;
ghost use Rattle.go_step.specs.Calls as spec;

use crate::calls::{blank, fill};
use crate::frames::empty_frame;
use crate::returns::STACK_LIMIT;
use go_meaning::{Config, Deferred, End, Frame, Item, Op, Program, Stack, Value};
use std::alloc::{AllocError, Global};

// A further frame takes the arguments of a deferred call of a function. An `Err` changes nothing.
fn push_deferred(
    alloc: Global,
    frames: &mut Stack<Frame>,
    function: u64,
    args: usize,
    new: Frame,
) -> Result<(), AllocError>
    requires call { spec.DefersCall function args frames.old }
    requires room { args ≤ length new.slots }
    ensures ok { OnOk result (spec.DefersInto function args new frames.old frames.new) }
    ensures err { OnErr result (frames.new ≡ frames.old) }
{
    let _args = (function, args);
    let mut called = new;
    frames.push(empty_frame(alloc))?;
    let mut caller = frames.swap_at(1, empty_frame(alloc));
    match caller.deferred.pop() {
        Some(Deferred::Call(call)) => fill(&mut called.slots, call.args),
        _ => unreachable!(),
    }
    let _hole = frames.swap_at(1, caller);
    let _top = frames.swap_top(called);
    Ok(())
}

// A value on the stack, and an item before the control. An `Err` changes nothing.
fn push_close(frame: &mut Frame) -> Result<(), AllocError>
    requires { spec.IsClose frame.old.deferred }
    ensures ok { OnOk result (spec.operated frame.old frame.old.deferred ≡ Some frame.new) }
    ensures err { OnErr result (frame.new ≡ frame.old) }
{
    frame.stack.push(Value::Flag(false))?;
    if let Err(e) = frame.control.push(Item::Do(Op::Close)) {
        frame.stack.drop_top(1);
        return Err(e);
    }
    match frame.deferred.pop() {
        Some(Deferred::Close(channel)) => {
            let _hole = frame.stack.swap_top(channel);
            Ok(())
        }
        _ => unreachable!(),
    }
}

// Values on the stack, and an item before the control. An `Err` changes nothing.
fn push_println(alloc: Global, frame: &mut Frame, count: u64) -> Result<(), AllocError>
    requires { spec.IsPrintlnOf count frame.old.deferred }
    ensures ok { OnOk result (spec.operated frame.old frame.old.deferred ≡ Some frame.new) }
    ensures err { OnErr result (frame.new ≡ frame.old) }
{
    frame.control.push(Item::Do(Op::Println(count)))?;
    match frame.deferred.swap_top(Deferred::Done(0)) {
        Deferred::Println(mut values) => match frame.stack.put_all(alloc, &mut values) {
            Ok(()) => {
                frame.deferred.drop_top(1);
                Ok(())
            }
            Err(e) => {
                frame.control.drop_top(1);
                let _hole = frame.deferred.swap_top(Deferred::Println(values));
                Err(e)
            }
        },
        _ => unreachable!(),
    }
}

// Puts the operation of a deferred call before the control. An `Err` changes nothing.
fn push_operation(alloc: Global, frame: &mut Frame) -> Result<(), AllocError>
    requires { spec.IsOperation frame.old.deferred }
    ensures ok { OnOk result (spec.operated frame.old frame.old.deferred ≡ Some frame.new) }
    ensures err { OnErr result (frame.new ≡ frame.old) }
{
    match frame.deferred.peek(0) {
        Some(Deferred::Done(group)) => {
            frame.control.push(Item::Do(Op::Done(*group)))?;
            frame.deferred.drop_top(1);
            Ok(())
        }
        Some(Deferred::Unlock(mutex)) => {
            frame.control.push(Item::Do(Op::Unlock(*mutex)))?;
            frame.deferred.drop_top(1);
            Ok(())
        }
        Some(Deferred::Close(_)) => push_close(frame),
        Some(Deferred::Println(values)) => {
            let count = values.len() as u64;
            push_println(alloc, frame, count)
        }
        _ => unreachable!(),
    }
}

fn run_operation(alloc: Global, frames: &mut Stack<Frame>) -> Result<(), AllocError>
    requires { spec.DefersOperation frames.old }
    ensures ok { OnOk result (spec.OperatesFrames frames.old frames.new) }
    ensures err { OnErr result (frames.new ≡ frames.old) }
{
    let mut frame = frames.swap_top(empty_frame(alloc));
    let done = push_operation(alloc, &mut frame);
    let _hole = frames.swap_top(frame);
    done
}

/// Runs the deferred call that was added last. An `Err` changes nothing.
#[tactic(auto, using(crate::proofs::Calling::deferred_leaves, crate::proofs::Calling::operation_leaves))]
pub fn run_deferred(
    alloc: Global,
    program: &Program,
    config: &mut Config,
    frames: &mut Stack<Frame>,
) -> Result<(), AllocError>
    requires { spec.HasDeferred frames.old }
    ensures ok { OnOk result (spec.deferred_move program.now config.old frames.old ≡ Some (moves.moved config.new (moves.running frames.new))) }
    ensures same { OnErr result (config.new ≡ config.old) }
    ensures err { OnErr result (frames.new ≡ frames.old) }
{
    let Some(top) = frames.peek(0) else {
        unreachable!();
    };
    match top.deferred.peek(0) {
        Some(Deferred::Call(call)) => {
            let function = call.function;
            let args = call.args.len();
            if frames.len() >= STACK_LIMIT {
                config.end = Some(End::StackLimit);
                return Ok(());
            }
            let new = blank(alloc, program, function, args, true)?;
            push_deferred(alloc, frames, function, args, new)
        }
        Some(_) => run_operation(alloc, frames),
        None => unreachable!(),
    }
}
