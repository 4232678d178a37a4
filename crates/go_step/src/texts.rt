//! What operations on texts do.
#![tactic(auto, unfolding(go_meaning::specs::Operations::on_number, go_meaning::specs::Operations::on_text, go_meaning::specs::Operations::a_text, go_meaning::specs::Operations::indexed, go_meaning::specs::Operations::cut_text))]

ghost use Rattle.std.specs.Prelude.{◌≡◌, ◌≤◌, ℕ, IfOk, length, pos, true, false};
ghost use Rattle.go_value.specs.Integers.{value_of};
ghost use Rattle.go_value.specs.Texts.{Answers, byte_at, cut, joined};
ghost use Rattle.go_meaning.specs.Operations as operations;
ghost use Rattle.go_meaning.specs.Operations.{on_number, on_text, top, indexed, a_text};

use crate::answers::panics;
use go_ast::Text;
use go_meaning::{Act, End, Stack, Value};
use go_value::{Int, Kind, OutOfRange, STRING_LIMIT, TextFault, join_text};
use std::alloc::{AllocError, Global};

fn text_act(alloc: Global, pops: u64, bytes: &[u8]) -> Result<Act, AllocError>
    ensures { IfOk result (λ a. a ≡ Act.Pushes pops (Value.Text bytes.now)) }
{
    Ok(Act::Pushes(pops, Value::Text(Text::of(alloc, bytes)?)))
}

/// `+` of texts.
pub fn join(alloc: Global, stack: &Stack<Value>) -> Result<Act, AllocError>
    ensures { IfOk result (λ a. a ≡ on_text (top 0 stack.now) (λ right. on_text (top 1 stack.now) (λ left. a_text 2 (joined left right)))) }
{
    match (stack.peek(0), stack.peek(1)) {
        (Some(Value::Text(right)), Some(Value::Text(left))) => {
            match join_text(alloc, left.bytes(), right.bytes()) {
                Ok(text) => text_act(alloc, 2, &text),
                Err(TextFault::OutOfRange) => out_of_bounds(alloc),
                Err(TextFault::StringLimit) => Ok(Act::Stops(End::StringLimit)),
                Err(TextFault::NoMemory) => Err(AllocError),
            }
        }
        _ => Ok(Act::Stuck),
    }
}

fn out_of_bounds(alloc: Global) -> Result<Act, AllocError>
    ensures { (n : ℕ) → IfOk result (λ a. a ≡ a_text n (Err TextFault.OutOfRange)) }
{
    panics(alloc, b"runtime error: slice bounds out of range")
}

/// The byte of a text at an index from 0.
fn byte_of(s: &[u8], at: i128) -> Result<u8, OutOfRange>
    ensures { result ≡ byte_at s.now at }
{
    match usize::try_from(at) {
        Ok(at) => s.get(at).copied().ok_or(OutOfRange),
        Err(_) => Err(OutOfRange),
    }
}

fn indexed_act(alloc: Global, byte: Result<u8, OutOfRange>) -> Result<Act, AllocError>
    ensures { IfOk result (λ a. a ≡ indexed byte) }
{
    match byte {
        Ok(b) => Ok(Act::Pushes(2, Value::Number(Int::wrapped(Kind::U8, i128::from(b))))),
        Err(_) => panics(alloc, b"runtime error: index out of range"),
    }
}

/// `s[i]`
pub fn index(alloc: Global, stack: &Stack<Value>) -> Result<Act, AllocError>
    ensures { IfOk result (λ a. a ≡ on_number (top 0 stack.now) (λ i. on_text (top 1 stack.now) (λ s. indexed (byte_at s (value_of i))))) }
{
    match (stack.peek(0), stack.peek(1)) {
        (Some(Value::Number(i)), Some(Value::Text(s))) => {
            indexed_act(alloc, byte_of(s.bytes(), i.value()))
        }
        _ => Ok(Act::Stuck),
    }
}

// The bytes from `low` to before `high`, which are within the text, take the place of that many values.
fn within(alloc: Global, pops: u64, s: &[u8], low: usize, high: usize) -> Result<Act, AllocError>
    requires order { low ≤ high }
    requires room { high ≤ length s.now }
    ensures { IfOk result (λ a. a ≡ a_text pops (cut s.now (pos low) (pos high))) }
{
    if high - low > STRING_LIMIT {
        return Ok(Act::Stops(End::StringLimit));
    }
    text_act(alloc, pops, &s[low..high])
}

// The panic at bounds that are out of range.
#[tactic(auto, unfolding(go_meaning::specs::Operations::a_text))]
fn outside(alloc: Global, pops: u64, s: &[u8], low: i128, high: i128) -> Result<Act, AllocError>
    requires { cut s.now low high ≡ Err TextFault.OutOfRange }
    ensures { IfOk result (λ a. a ≡ a_text pops (cut s.now low high)) }
{
    let _text = s;
    let _bounds = (pops, low, high);
    panics(alloc, b"runtime error: slice bounds out of range")
}

// The bytes from `low` to before `high` take the place of that many values.
#[tactic(auto, using(crate::proofs::Cuts::low_out, crate::proofs::Cuts::order_out, crate::proofs::Cuts::high_out))]
fn part(alloc: Global, pops: u64, s: &[u8], low: i128, high: i128) -> Result<Act, AllocError>
    ensures { IfOk result (λ a. a ≡ a_text pops (cut s.now low high)) }
{
    if low < 0 {
        return outside(alloc, pops, s, low, high);
    }
    if high < low {
        return outside(alloc, pops, s, low, high);
    }
    if high > s.len() as i128 {
        return outside(alloc, pops, s, low, high);
    }
    within(alloc, pops, s, low as usize, high as usize)
}

fn cut_both(alloc: Global, stack: &Stack<Value>) -> Result<Act, AllocError>
    ensures { IfOk result (λ a. a ≡ operations.cut_text true true stack.now) }
{
    match (stack.peek(0), stack.peek(1), stack.peek(2)) {
        (Some(Value::Number(high)), Some(Value::Number(low)), Some(Value::Text(s))) => {
            part(alloc, 3, s.bytes(), low.value(), high.value())
        }
        _ => Ok(Act::Stuck),
    }
}

fn cut_low(alloc: Global, stack: &Stack<Value>) -> Result<Act, AllocError>
    ensures { IfOk result (λ a. a ≡ operations.cut_text true false stack.now) }
{
    match (stack.peek(0), stack.peek(1)) {
        (Some(Value::Number(low)), Some(Value::Text(s))) => {
            part(alloc, 2, s.bytes(), low.value(), s.bytes().len() as i128)
        }
        _ => Ok(Act::Stuck),
    }
}

fn cut_high(alloc: Global, stack: &Stack<Value>) -> Result<Act, AllocError>
    ensures { IfOk result (λ a. a ≡ operations.cut_text false true stack.now) }
{
    match (stack.peek(0), stack.peek(1)) {
        (Some(Value::Number(high)), Some(Value::Text(s))) => {
            part(alloc, 2, s.bytes(), 0, high.value())
        }
        _ => Ok(Act::Stuck),
    }
}

fn cut_neither(alloc: Global, stack: &Stack<Value>) -> Result<Act, AllocError>
    ensures { IfOk result (λ a. a ≡ operations.cut_text false false stack.now) }
{
    match stack.peek(0) {
        Some(Value::Text(s)) => part(alloc, 1, s.bytes(), 0, s.bytes().len() as i128),
        _ => Ok(Act::Stuck),
    }
}

/// `s[i:j]`, where `low` and `high` say which bounds are given.
pub fn cut_act(
    alloc: Global,
    low: bool,
    high: bool,
    stack: &Stack<Value>,
) -> Result<Act, AllocError>
    ensures { IfOk result (λ a. a ≡ operations.cut_text low high stack.now) }
{
    match (low, high) {
        (true, true) => cut_both(alloc, stack),
        (true, false) => cut_low(alloc, stack),
        (false, true) => cut_high(alloc, stack),
        (false, false) => cut_neither(alloc, stack),
    }
}
