//! What items that take values from the stack do.
#![tactic(auto, unfolding(go_meaning::specs::Acts::has, go_meaning::specs::Acts::assign, go_meaning::specs::Operations::on_value, go_meaning::specs::Operations::on_flag))]

ghost use Rattle.std.specs.Prelude.{◌≡◌, [], ◌∷◌, IfOk, drop, if◌then◌else◌, true, false};
ghost use Rattle.go_meaning.specs.Acts as acts;
ghost use Rattle.go_meaning.specs.Operations.{on_flag, top};

use crate::copies::copy_expr;
use go_meaning::{Act, Expr, Item, Stack, Target, Value};
use std::alloc::{AllocError, Global};

/// Drops that many values.
pub fn dropped(alloc: Global, count: u64, stack: &Stack<Value>) -> Act
    ensures { result ≡ acts.has count stack.now (Act.Replaces count []) }
{
    if count <= stack.len() as u64 {
        Act::Replaces(count, Stack::new(alloc))
    } else {
        Act::Stuck
    }
}

/// Returns that many values.
pub fn returned(count: u64, stack: &Stack<Value>) -> Act
    ensures { result ≡ acts.has count stack.now (Act.Returns count) }
{
    if count <= stack.len() as u64 {
        Act::Returns(count)
    } else {
        Act::Stuck
    }
}

// All targets but the first.
#[tactic(auto, using(crate::proofs::FurtherTargets::target_next))]
fn further(alloc: Global, targets: &Stack<Target>) -> Result<Stack<Target>, AllocError>
    ensures { IfOk result (λ ts. ts ≡ drop 1 targets.now) }
{
    let mut rest = Stack::new(alloc);
    let len = targets.len();
    for k in 1..len {
        let Some(target) = targets.peek(len - k) else {
            unreachable!();
        };
        rest.push(*target)?;
    }
    Ok(rest)
}

/// The first target takes the value that lies under one for each further target.
pub fn assigned(
    alloc: Global,
    targets: &Stack<Target>,
    stack: &Stack<Value>,
) -> Result<Act, AllocError>
    ensures { IfOk result (λ a. a ≡ acts.assign targets.now stack.now) }
{
    let Some(target) = targets.peek(0) else {
        return Ok(Act::Replaces(0, Stack::new(alloc)));
    };
    match stack.peek(targets.len() - 1) {
        Some(_) => Ok(Act::Assigns(*target, further(alloc, targets)?)),
        None => Ok(Act::Stuck),
    }
}

// Goes on with an expression in the place of the value on top.
fn goes_on(alloc: Global, e: &Expr) -> Result<Act, AllocError>
    ensures { IfOk result (λ a. a ≡ Act.Replaces 1 (Item.Eval e.now ∷ [])) }
{
    let mut items = Stack::new(alloc);
    items.push(Item::Eval(copy_expr(alloc, e)?))?;
    Ok(Act::Replaces(1, items))
}

/// `&&` after its left operand.
pub fn and_then(alloc: Global, e: &Expr, stack: &Stack<Value>) -> Result<Act, AllocError>
    ensures { IfOk result (λ a. a ≡ on_flag (top 0 stack.now) (λ b. if b then Act.Replaces 1 (Item.Eval e.now ∷ []) else Act.Pushes 1 (Value.Flag false))) }
{
    match stack.peek(0) {
        Some(Value::Flag(true)) => goes_on(alloc, e),
        Some(Value::Flag(false)) => Ok(Act::Pushes(1, Value::Flag(false))),
        _ => Ok(Act::Stuck),
    }
}

/// `||` after its left operand.
pub fn or_else(alloc: Global, e: &Expr, stack: &Stack<Value>) -> Result<Act, AllocError>
    ensures { IfOk result (λ a. a ≡ on_flag (top 0 stack.now) (λ b. if b then Act.Pushes 1 (Value.Flag true) else Act.Replaces 1 (Item.Eval e.now ∷ []))) }
{
    match stack.peek(0) {
        Some(Value::Flag(true)) => Ok(Act::Pushes(1, Value::Flag(true))),
        Some(Value::Flag(false)) => goes_on(alloc, e),
        _ => Ok(Act::Stuck),
    }
}
