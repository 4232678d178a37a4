//! What operations that write values do.
#![tactic(auto, unfolding(go_meaning::specs::Operations::on_value, go_meaning::specs::Operations::written, go_meaning::specs::Operations::printed))]

ghost use Rattle.std.specs.Prelude.{◌≡◌, ◌++◌, ◌≤◌, [], ◌∷◌, if◌then◌else◌, IfOk, OnOk, length, reverse, take};
ghost use Rattle.go_meaning.specs.Operations as operations;
ghost use Rattle.go_meaning.specs.Operations.{on_value, top};
ghost use Rattle.go_meaning.specs.Values as values;

use crate::arithmetic::decimal_text;
use go_ast::Text;
use go_meaning::{Act, Config, End, Stack, Value};
use std::alloc::{AllocError, Global};

/// How many bytes a run writes at most.
pub const OUTPUT_LIMIT: usize = 16_777_216;

fn push_shown(alloc: Global, line: &mut Vec<u8>, value: &Value) -> Result<(), AllocError>
    ensures { OnOk result (line.new.items ≡ line.old.items ++ values.shown value.now) }
{
    match value {
        Value::Flag(true) => line.extend_from_slice(b"true"),
        Value::Flag(false) => line.extend_from_slice(b"false"),
        Value::Number(i) => line.extend_from_slice(decimal_text(alloc, i.value())?.bytes()),
        Value::Text(s) => line.extend_from_slice(s.bytes()),
        Value::Channel(_) => Ok(()),
    }
}

/// `panic`
pub fn panic_act(alloc: Global, stack: &Stack<Value>) -> Result<Act, AllocError>
    ensures { IfOk result (λ a. a ≡ on_value (top 0 stack.now) (λ v. Act.Panics (values.shown v))) }
{
    match stack.peek(0) {
        Some(v) => {
            let mut message = Vec::new(alloc);
            push_shown(alloc, &mut message, v)?;
            Ok(Act::Panics(Text::of(alloc, &message)?))
        }
        None => Ok(Act::Stuck),
    }
}

// One more value of a line, which may be the first.
fn push_next(
    alloc: Global,
    line: &mut Vec<u8>,
    first: bool,
    value: &Value,
) -> Result<(), AllocError>
    ensures { OnOk result (line.new.items ≡ (if first then line.old.items else line.old.items ++ 32 ∷ []) ++ values.shown value.now) }
{
    if first {
        return push_shown(alloc, line, value);
    }
    line.push(b' ')?;
    push_shown(alloc, line, value)
}

// The line of that many values, the deepest first.
#[tactic(auto, using(crate::proofs::Lines::line_first, crate::proofs::Lines::line_more, crate::proofs::Lines::line_done))]
fn line_of(alloc: Global, stack: &Stack<Value>, count: usize) -> Result<Vec<u8>, AllocError>
    requires { count ≤ length stack.now }
    ensures { IfOk result (λ line. line.items ≡ values.line_of (reverse (take count stack.now))) }
{
    let mut line = Vec::new(alloc);
    for k in 0..count {
        let Some(value) = stack.peek(count - 1 - k) else {
            unreachable!();
        };
        push_next(alloc, &mut line, k == 0, value)?;
    }
    line.push(b'\n')?;
    Ok(line)
}

/// `fmt.Println` of that many values.
pub fn println_act(
    alloc: Global,
    config: &Config,
    count: u64,
    stack: &Stack<Value>,
) -> Result<Act, AllocError>
    ensures { IfOk result (λ a. a ≡ operations.printed config.now count stack.now) }
{
    if count > stack.len() as u64 {
        return Ok(Act::Stuck);
    }
    let line = line_of(alloc, stack, count as usize)?;
    let written = config.output.bytes().len();
    if written > OUTPUT_LIMIT || line.len() > OUTPUT_LIMIT - written {
        return Ok(Act::Stops(End::OutputLimit));
    }
    Ok(Act::Prints(count, Text::of(alloc, &line)?))
}
