//! What an operation does.
#![tactic(auto, unfolding(go_meaning::specs::Operations::apply, go_meaning::specs::Operations::on_number))]

ghost use Rattle.std.specs.Prelude.{◌≡◌, IfOk, slice_get};
ghost use Rattle.go_value.specs.Integers.{value_of};
ghost use Rattle.go_meaning.specs.Operations as operations;
ghost use Rattle.go_step.specs.Effects.{IsEffect};
ghost use Rattle.go_meaning.specs.Operations.{on_number, top};

use crate::arithmetic::{
    arithmetic, conversion, exit, flip, itoa, keep, minus, negation, plus, spell,
};
use crate::channels::{cap, close, len, make_sized, make_unsized};
use crate::comparison::comparison;
use crate::locks::{add, lock, unlock, wait};
use crate::output::{panic_act, println_act};
use crate::texts::{cut_act, index, join};
use go_meaning::{Act, Config, Op, Stack, Value};
use std::alloc::{AllocError, Global};

fn add_act(
    alloc: Global,
    config: &Config,
    group: u64,
    stack: &Stack<Value>,
) -> Result<Act, AllocError>
    ensures { IfOk result (λ a. a ≡ on_number (top 0 stack.now) (λ n. operations.added 1 group (slice_get config.now.groups group) (value_of n))) }
{
    match stack.peek(0) {
        Some(Value::Number(n)) => add(alloc, 1, group, group_at(config, group), n.value()),
        _ => Ok(Act::Stuck),
    }
}

fn group_at(config: &Config, group: u64) -> Option<u32>
    ensures { result ≡ slice_get config.now.groups group }
{
    config.groups.as_slice().get(group as usize).copied()
}

fn mutex_at(config: &Config, mutex: u64) -> Option<bool>
    ensures { result ≡ slice_get config.now.mutexes mutex }
{
    config.mutexes.as_slice().get(mutex as usize).copied()
}

// What an operation on a mutex, a wait group, a channel or the output does.
fn effect(alloc: Global, config: &Config, op: &Op, stack: &Stack<Value>) -> Result<Act, AllocError>
    requires { IsEffect op.now }
    ensures { IfOk result (λ a. a ≡ operations.apply config.now op.now stack.now) }
{
    match op {
        Op::Make { zero, sized: true } => make_sized(alloc, zero, stack),
        Op::Make { zero, sized: false } => make_unsized(zero),
        Op::Close => close(alloc, config, stack),
        Op::Println(count) => println_act(alloc, config, *count, stack),
        Op::Panic => panic_act(alloc, stack),
        Op::Exit => exit(stack),
        Op::Lock(m) => Ok(lock(*m, mutex_at(config, *m))),
        Op::Unlock(m) => unlock(alloc, *m, mutex_at(config, *m)),
        Op::Add(g) => add_act(alloc, config, *g, stack),
        Op::Done(g) => add(alloc, 0, *g, group_at(config, *g), -1),
        Op::Wait(g) => Ok(wait(alloc, group_at(config, *g))),
        _ => unreachable!(),
    }
}

/// What an operation does, where its operands lie on top of a stack, the last of them first.
pub fn operation(
    alloc: Global,
    config: &Config,
    op: &Op,
    stack: &Stack<Value>,
) -> Result<Act, AllocError>
    ensures { IfOk result (λ a. a ≡ operations.apply config.now op.now stack.now) }
{
    match op {
        Op::Arithmetic(o) => arithmetic(alloc, *o, stack),
        Op::Join => join(alloc, stack),
        Op::Compare(relation) => Ok(comparison(*relation, stack)),
        Op::Not => Ok(negation(stack)),
        Op::Plus => Ok(plus(stack)),
        Op::Minus => Ok(minus(stack)),
        Op::Flip => Ok(flip(stack)),
        Op::Convert(kind) => Ok(conversion(*kind, stack)),
        Op::Spell => spell(alloc, stack),
        Op::Keep => keep(stack),
        Op::Index => index(alloc, stack),
        Op::Cut { low, high } => cut_act(alloc, *low, *high, stack),
        Op::Len => Ok(len(config, stack)),
        Op::Cap => Ok(cap(config, stack)),
        Op::Itoa => itoa(alloc, stack),
        effect_op => effect(alloc, config, effect_op, stack),
    }
}
