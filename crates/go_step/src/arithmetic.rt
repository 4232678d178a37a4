//! What operations on integers and flags do.
#![tactic(auto, unfolding(go_meaning::specs::Operations::on_number, go_meaning::specs::Operations::on_flag, go_meaning::specs::Operations::on_value, go_meaning::specs::Operations::calculated))]

ghost use Rattle.std.specs.Prelude.{◌≡◌, IfOk, not, neg_ℤ};
ghost use Rattle.std.specs.Fmt.{signed_decimal};
ghost use Rattle.go_value.specs.Integers.{value_of, wrap};
ghost use Rattle.go_value.specs.Bits.{complement};
ghost use Rattle.go_value.specs.Operations.{int_result};
ghost use Rattle.go_meaning.specs.Operations.{on_number, on_flag, on_value, top, calculated};
ghost use Rattle.go_meaning.specs.Values as values;

use crate::answers::panics;
use crate::copies::copy_value;
use go_ast::Text;
use go_meaning::{Act, End, Stack, Value};
use go_value::{Int, IntOp, Kind, ValueFault, convert, int_op};
use std::alloc::{AllocError, Global};

fn calculated_act(alloc: Global, outcome: Result<Int, ValueFault>) -> Result<Act, AllocError>
    ensures { IfOk result (λ a. a ≡ calculated outcome) }
{
    match outcome {
        Ok(i) => Ok(Act::Pushes(2, Value::Number(i))),
        Err(ValueFault::DivideByZero) => panics(alloc, b"runtime error: integer divide by zero"),
        Err(ValueFault::NegativeShift) => panics(alloc, b"runtime error: negative shift amount"),
    }
}

/// A binary operator on integers.
pub fn arithmetic(alloc: Global, op: IntOp, stack: &Stack<Value>) -> Result<Act, AllocError>
    ensures { IfOk result (λ a. a ≡ on_number (top 0 stack.now) (λ right. on_number (top 1 stack.now) (λ left. calculated (int_result op left right)))) }
{
    match (stack.peek(0), stack.peek(1)) {
        (Some(Value::Number(right)), Some(Value::Number(left))) => {
            calculated_act(alloc, int_op(op, *left, *right))
        }
        _ => Ok(Act::Stuck),
    }
}

/// `!`
pub fn negation(stack: &Stack<Value>) -> Act
    ensures { result ≡ on_flag (top 0 stack.now) (λ b. Act.Pushes 1 (Value.Flag (not b))) }
{
    match stack.peek(0) {
        Some(Value::Flag(b)) => Act::Pushes(1, Value::Flag(!*b)),
        _ => Act::Stuck,
    }
}

/// The unary `+`.
pub fn plus(stack: &Stack<Value>) -> Act
    ensures { result ≡ on_number (top 0 stack.now) (λ i. Act.Pushes 1 (Value.Number i)) }
{
    match stack.peek(0) {
        Some(Value::Number(i)) => Act::Pushes(1, Value::Number(*i)),
        _ => Act::Stuck,
    }
}

/// The unary `-`.
pub fn minus(stack: &Stack<Value>) -> Act
    ensures { result ≡ on_number (top 0 stack.now) (λ i. Act.Pushes 1 (Value.Number (wrap i.kind (neg_ℤ (value_of i))))) }
{
    match stack.peek(0) {
        Some(Value::Number(i)) => {
            Act::Pushes(1, Value::Number(Int::wrapped(i.kind, -i.value())))
        }
        _ => Act::Stuck,
    }
}

/// The unary `^`.
pub fn flip(stack: &Stack<Value>) -> Act
    ensures { result ≡ on_number (top 0 stack.now) (λ i. Act.Pushes 1 (Value.Number (wrap i.kind (complement (value_of i))))) }
{
    match stack.peek(0) {
        Some(Value::Number(i)) => {
            Act::Pushes(1, Value::Number(Int::wrapped(i.kind, !i.value())))
        }
        _ => Act::Stuck,
    }
}

/// The conversion of an integer to a kind.
pub fn conversion(kind: Kind, stack: &Stack<Value>) -> Act
    ensures { result ≡ on_number (top 0 stack.now) (λ i. Act.Pushes 1 (Value.Number (wrap kind (value_of i)))) }
{
    match stack.peek(0) {
        Some(Value::Number(i)) => Act::Pushes(1, Value::Number(convert(*i, kind))),
        _ => Act::Stuck,
    }
}

/// The conversion of a value to its own type.
pub fn keep(stack: &Stack<Value>) -> Result<Act, AllocError>
    ensures { IfOk result (λ a. a ≡ on_value (top 0 stack.now) (λ v. Act.Pushes 1 v)) }
{
    match stack.peek(0) {
        Some(v) => Ok(Act::Pushes(1, copy_value(v)?)),
        None => Ok(Act::Stuck),
    }
}

/// The decimal spelling of a whole number.
pub fn decimal_text(alloc: Global, value: i128) -> Result<Text, AllocError>
    ensures { IfOk result (λ text. text ≡ signed_decimal value) }
{
    let spelling = format!(in alloc; "{}", value)?;
    Text::of(alloc, spelling.as_bytes())
}

/// `strconv.Itoa`
pub fn itoa(alloc: Global, stack: &Stack<Value>) -> Result<Act, AllocError>
    ensures { IfOk result (λ a. a ≡ on_number (top 0 stack.now) (λ n. Act.Pushes 1 (Value.Text (signed_decimal (value_of n))))) }
{
    match stack.peek(0) {
        Some(Value::Number(n)) => {
            Ok(Act::Pushes(1, Value::Text(decimal_text(alloc, n.value())?)))
        }
        _ => Ok(Act::Stuck),
    }
}

/// `os.Exit`. A status that has no 64 bits with its sign, as no checked program gives, is answered as want of memory.
pub fn exit(stack: &Stack<Value>) -> Result<Act, AllocError>
    ensures { IfOk result (λ a. a ≡ on_number (top 0 stack.now) (λ n. Act.Ends 1 (End.Exit (value_of n)))) }
{
    match stack.peek(0) {
        Some(Value::Number(n)) => match i64::try_from(n.value()) {
            Ok(status) => Ok(Act::Ends(1, End::Exit(status))),
            Err(_) => Err(AllocError),
        },
        _ => Ok(Act::Stuck),
    }
}

fn spelled(alloc: Global, value: i128) -> Result<Text, AllocError>
    ensures { IfOk result (λ text. text ≡ values.spelled value) }
{
    let c = match u32::try_from(value) {
        Ok(code) => char::from_u32(code).unwrap_or('\u{FFFD}'),
        Err(_) => '\u{FFFD}',
    };
    let mut buffer = [0; 4];
    Text::of(alloc, c.encode_utf8(&mut buffer).as_bytes())
}

/// The conversion of an integer to the text of that code point.
pub fn spell(alloc: Global, stack: &Stack<Value>) -> Result<Act, AllocError>
    ensures { IfOk result (λ a. a ≡ on_number (top 0 stack.now) (λ n. Act.Pushes 1 (Value.Text (values.spelled (value_of n))))) }
{
    match stack.peek(0) {
        Some(Value::Number(n)) => Ok(Act::Pushes(1, Value::Text(spelled(alloc, n.value())?))),
        _ => Ok(Act::Stuck),
    }
}
