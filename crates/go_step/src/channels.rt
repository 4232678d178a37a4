//! What operations on channels do, and `len`.
#![tactic(auto, unfolding(go_meaning::specs::Operations::on_value, go_meaning::specs::Operations::on_number, go_meaning::specs::Operations::on_channel, go_meaning::specs::Operations::measured, go_meaning::specs::Operations::made, go_meaning::specs::Operations::closed, go_meaning::specs::Operations::closed_by))]

ghost use Rattle.std.specs.Prelude.{◌≡◌, IfOk, length, pos};
ghost use Rattle.std.specs.Option.{option_copied};
ghost use Rattle.go_value.specs.Integers.{value_of};
ghost use Rattle.go_meaning.specs.Operations as operations;
ghost use Rattle.go_meaning.specs.Operations.{on_value, on_number, on_channel, top};
ghost use Rattle.go_meaning.specs.declared.value.Channel.{Channel};

use crate::answers::{number, panics};
use crate::copies::copy_value;
use go_meaning::{Act, Channel, Config, Stack, Value};
use std::alloc::{AllocError, Global};

fn channel_at(config: &Config, channel: Option<u32>) -> Option<&Channel>
    ensures { option_copied result ≡ operations.channel_at config.now channel }
{
    match channel {
        Some(k) => config.channels.as_slice().get(k as usize),
        None => None,
    }
}

fn measured(config: &Config, value: &Value) -> Act
    ensures { result ≡ operations.measured config.now value.now }
{
    match value {
        Value::Text(s) => Act::Pushes(1, number(s.bytes().len() as i128)),
        Value::Channel(channel) => Act::Pushes(1, number(held(config, *channel) as i128)),
        _ => Act::Stuck,
    }
}

// How many values wait in a channel, or 0 of `nil`.
fn held(config: &Config, channel: Option<u32>) -> usize
    ensures { result ≡ operations.of_channel config.now channel (λ (ch : Channel). length ch.values) }
{
    match channel_at(config, channel) {
        Some(ch) => ch.values.len(),
        None => 0,
    }
}

// The capacity of a channel, or 0 of `nil`.
fn capacity_of(config: &Config, channel: Option<u32>) -> u64
    ensures { result ≡ operations.of_channel config.now channel (λ (ch : Channel). ch.capacity) }
{
    match channel_at(config, channel) {
        Some(ch) => ch.capacity,
        None => 0,
    }
}

/// `len`
pub fn len(config: &Config, stack: &Stack<Value>) -> Act
    ensures { result ≡ on_value (top 0 stack.now) (operations.measured config.now) }
{
    match stack.peek(0) {
        Some(v) => measured(config, v),
        None => Act::Stuck,
    }
}

/// `cap`
pub fn cap(config: &Config, stack: &Stack<Value>) -> Act
    ensures { result ≡ on_channel (top 0 stack.now) (λ o. Act.Pushes 1 (operations.number (pos (operations.of_channel config.now o (λ (ch : Channel). ch.capacity))))) }
{
    match stack.peek(0) {
        Some(Value::Channel(channel)) => {
            Act::Pushes(1, number(i128::from(capacity_of(config, *channel))))
        }
        _ => Act::Stuck,
    }
}

// A size of 2^64 or more, which no integer has, is answered as want of memory.
fn made(alloc: Global, zero: &Value, size: i128) -> Result<Act, AllocError>
    ensures { IfOk result (λ a. a ≡ operations.made zero.now size) }
{
    if size < 0 {
        return panics(alloc, b"makechan: size out of range");
    }
    match u64::try_from(size) {
        Ok(capacity) => Ok(Act::Makes {
            pops: 1,
            zero: copy_value(zero)?,
            capacity,
        }),
        Err(_) => Err(AllocError),
    }
}

/// `make` with a size.
pub fn make_sized(alloc: Global, zero: &Value, stack: &Stack<Value>) -> Result<Act, AllocError>
    ensures { IfOk result (λ a. a ≡ on_number (top 0 stack.now) (λ n. operations.made zero.now (value_of n))) }
{
    match stack.peek(0) {
        Some(Value::Number(n)) => made(alloc, zero, n.value()),
        _ => Ok(Act::Stuck),
    }
}

/// `make` without a size.
pub fn make_unsized(zero: &Value) -> Result<Act, AllocError>
    ensures { IfOk result (λ a. a ≡ Act.Makes 0 zero.now 0) }
{
    Ok(Act::Makes {
        pops: 0,
        zero: copy_value(zero)?,
        capacity: 0,
    })
}

fn closed(alloc: Global, config: &Config, channel: Option<u32>) -> Result<Act, AllocError>
    ensures { IfOk result (λ a. a ≡ operations.closed config.now channel) }
{
    let Some(k) = channel else {
        return panics(alloc, b"close of nil channel");
    };
    match config.channels.as_slice().get(k as usize) {
        Some(ch) => {
            if ch.closed {
                panics(alloc, b"close of closed channel")
            } else {
                Ok(Act::Closes(k))
            }
        }
        None => Ok(Act::Stuck),
    }
}

/// `close`
pub fn close(alloc: Global, config: &Config, stack: &Stack<Value>) -> Result<Act, AllocError>
    ensures { IfOk result (λ a. a ≡ on_channel (top 0 stack.now) (operations.closed config.now)) }
{
    match stack.peek(0) {
        Some(Value::Channel(channel)) => closed(alloc, config, *channel),
        _ => Ok(Act::Stuck),
    }
}
