//! Calls that are deferred.
ghost use Rattle.std.specs.Prelude.{◌≡◌, ◌≤◌, length, OnOk, IfOk, OnErr, Some, reverse, take, drop};
ghost use Rattle.go_meaning.specs.Moves as moves;
ghost use Rattle.go_step.specs.Puts as puts;

use crate::functions::operands_of;
use go_meaning::{Call, Deferral, Deferred, Frame, Program, Stack, Value};
use std::alloc::{AllocError, Global};

// Takes the operands of a deferred call off the stack. An `Err` changes nothing.
fn take_call(
    alloc: Global,
    stack: &mut Stack<Value>,
    deferral: Deferral,
    count: usize,
) -> Result<Deferred, AllocError>
    requires within { count ≤ length stack.old }
    requires one { puts.IsOneToClose deferral count }
    ensures call { IfOk result (λ call. moves.deferred_call deferral (reverse (take count stack.old)) ≡ Some call) }
    ensures ok { OnOk result (stack.new ≡ drop count stack.old) }
    ensures err { OnErr result (stack.new ≡ stack.old) }
{
    match deferral {
        Deferral::Call(function) => Ok(Deferred::Call(Call {
            function,
            args: stack.take_off(alloc, count)?,
        })),
        Deferral::Done(group) => {
            stack.cut(count);
            Ok(Deferred::Done(group))
        }
        Deferral::Unlock(mutex) => {
            stack.cut(count);
            Ok(Deferred::Unlock(mutex))
        }
        Deferral::Close => match stack.pop() {
            Some(channel) => Ok(Deferred::Close(channel)),
            None => unreachable!(),
        },
        Deferral::Println(_) => Ok(Deferred::Println(stack.take_off(alloc, count)?)),
    }
}

/// Whether a call could be deferred: its operands are there. `false` and an `Err` change nothing.
pub fn defers(
    alloc: Global,
    program: &Program,
    frame: &mut Frame,
    deferral: Deferral,
) -> Result<bool, AllocError>
    ensures { puts.DefersFrame program.now frame.old deferral result frame.new }
{
    let count = operands_of(program, deferral);
    if count > frame.stack.len() as u64 {
        return Ok(false);
    }
    frame.deferred.push(Deferred::Done(0))?;
    match take_call(alloc, &mut frame.stack, deferral, count as usize) {
        Ok(call) => {
            let _placeholder = frame.deferred.swap_top(call);
            frame.control.drop_top(1);
            Ok(true)
        }
        Err(e) => {
            let _placeholder = frame.deferred.pop();
            Err(e)
        }
    }
}
