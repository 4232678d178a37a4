//! What the evaluation of an expression does.
ghost use Rattle.std.specs.Prelude.{◌≡◌, IfOk, slice_get};
ghost use Rattle.std.specs.Option.{option_copied, option_flatten};
ghost use Rattle.go_meaning.specs.Acts as acts;
ghost use Rattle.go_meaning.specs.declared.expr.Expr.{out-Expr};

use crate::copies::{copy_expr, copy_op, copy_value};
use crate::items::{push_eval, push_evals};
use go_meaning::{Act, Config, End, Expr, Item, Stack, Value, Variable};
use go_value::STRING_LIMIT;
use std::alloc::{AllocError, Global};

/// What a constant does.
#[tactic(auto, unfolding(go_meaning::specs::Acts::constant))]
fn constant(value: &Value) -> Result<Act, AllocError>
    ensures { IfOk result (λ a. a ≡ acts.constant value.now) }
{
    match value {
        Value::Text(s) if s.bytes().len() > STRING_LIMIT => Ok(Act::Stops(End::StringLimit)),
        v => Ok(Act::Pushes(0, copy_value(v)?)),
    }
}

#[tactic(auto, unfolding(go_meaning::specs::Acts::pushed))]
fn pushed(value: Option<&Value>) -> Result<Act, AllocError>
    ensures { IfOk result (λ a. a ≡ acts.pushed (option_copied value.entry)) }
{
    match value {
        Some(v) => Ok(Act::Pushes(0, copy_value(v)?)),
        None => Ok(Act::Stuck),
    }
}

fn slot_at(slots: &[Option<Value>], slot: u64) -> Option<&Value>
    ensures { option_copied result ≡ option_flatten (slice_get slots.now slot) }
{
    match slots.get(slot as usize) {
        Some(Some(v)) => Some(v),
        _ => None,
    }
}

fn variable(config: &Config, slots: &[Option<Value>], variable: Variable) -> Result<Act, AllocError>
    ensures { IfOk result (λ a. a ≡ acts.variable config.now slots.now variable) }
{
    match variable {
        Variable::Slot(slot) => pushed(slot_at(slots, slot)),
        Variable::Global(global) => pushed(config.globals.as_slice().get(global as usize)),
    }
}

/// What the evaluation of an expression does in a frame with these slots.
pub fn evaluation(
    alloc: Global,
    config: &Config,
    slots: &[Option<Value>],
    e: &Expr,
) -> Result<Act, AllocError>
    ensures { IfOk result (λ a. a ≡ acts.eval config.now slots.now (out-Expr e.now)) }
{
    let mut items = Stack::new(alloc);
    match e {
        Expr::Value(value) => constant(value),
        Expr::Variable(x) => variable(config, slots, *x),
        Expr::And(a, b) => {
            items.push(Item::And(copy_expr(alloc, b.get())?))?;
            push_eval(alloc, &mut items, a.get())?;
            Ok(Act::Replaces(0, items))
        }
        Expr::Or(a, b) => {
            items.push(Item::Or(copy_expr(alloc, b.get())?))?;
            push_eval(alloc, &mut items, a.get())?;
            Ok(Act::Replaces(0, items))
        }
        Expr::Apply(op, es) => {
            items.push(Item::Do(copy_op(op)?))?;
            push_evals(alloc, &mut items, es.as_slice())?;
            Ok(Act::Replaces(0, items))
        }
        Expr::Receive(a) => {
            items.push(Item::Recv)?;
            push_eval(alloc, &mut items, a.get())?;
            Ok(Act::Replaces(0, items))
        }
        Expr::ReceiveOk(a) => {
            items.push(Item::RecvOk)?;
            push_eval(alloc, &mut items, a.get())?;
            Ok(Act::Replaces(0, items))
        }
        Expr::Call(f, es) => {
            items.push(Item::Call(*f))?;
            push_evals(alloc, &mut items, es.as_slice())?;
            Ok(Act::Replaces(0, items))
        }
    }
}
