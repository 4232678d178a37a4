//! Frames of calls.
ghost use Rattle.std.specs.Prelude.{◌≡◌, ◌+◌, ◌≤◌, ◌<◌, ◌++◌, length, map, drop, max, Some, None, replicate, IfOk, OnOk, OnErr};
ghost use Rattle.go_step.specs.Calls as spec;

use crate::frames::{consume, empty_frame};
use crate::functions::{body_of, slots_of};
use go_meaning::{Frame, Item, Program, Row, Stack, Value};
use sqlite_items::Items;
use std::alloc::{AllocError, Global};

fn empty_slots(alloc: Global, count: u64) -> Result<Items<Option<Value>>, AllocError>
    ensures { IfOk result (λ slots. slots ≡ replicate count None) }
{
    let mut slots = Items::new(alloc);
    for _k in 0..count {
        slots.push(None)?;
    }
    Ok(slots)
}

/// A frame of a function with room for so many arguments, before they are there.
pub fn blank(
    alloc: Global,
    program: &Program,
    function: u64,
    args: usize,
    drops: bool,
) -> Result<Frame, AllocError>
    ensures { IfOk result (λ f. f ≡ spec.blank program.now function args drops) }
{
    let slots = slots_of(program, function).max(args as u64);
    let mut control = Stack::new(alloc);
    control.push(Item::Return(0))?;
    control.push(Item::Run(body_of(program, function), 0))?;
    Ok(Frame {
        slots: empty_slots(alloc, slots)?,
        stack: Stack::new(alloc),
        deferred: Stack::new(alloc),
        control,
        drops,
    })
}

/// The first slots take the arguments.
pub fn fill(slots: &mut Items<Option<Value>>, args: Row<Value>)
    requires { length args ≤ length slots.old }
    ensures { slots.new ≡ map Some args ++ drop (length args) slots.old }
{
    let mut left = args;
    for at in 0..left.len() {
        let value = left.replace(at, Value::Flag(false));
        slots.set(at, Some(value));
    }
}

/// A further frame takes so many values off the stack of the frame that runs, whose head item goes. An `Err` changes nothing.
pub fn push_call(
    alloc: Global,
    frames: &mut Stack<Frame>,
    new: Frame,
    count: usize,
) -> Result<(), AllocError>
    requires top { spec.HasValues count frames.old }
    requires room { count ≤ length new.slots }
    ensures ok { OnOk result (spec.CallsFrames count new frames.old frames.new) }
    ensures err { OnErr result (frames.new ≡ frames.old) }
{
    let mut called = new;
    frames.push(empty_frame(alloc))?;
    let mut caller = frames.swap_at(1, empty_frame(alloc));
    match caller.stack.take_off(alloc, count) {
        Ok(args) => {
            caller.control.drop_top(1);
            fill(&mut called.slots, args);
            let _hole = frames.swap_at(1, caller);
            let _top = frames.swap_top(called);
            Ok(())
        }
        Err(e) => {
            let _hole = frames.swap_at(1, caller);
            frames.drop_top(1);
            Err(e)
        }
    }
}
