//! What a statement does: its items, or where control goes.
ghost use Rattle.std.specs.Prelude.{◌≡◌, ◌+◌, ◌^◌, ◌<◌, suc, [], ◌∷◌, ◌++◌, IfOk, map, flat_map};
ghost use Rattle.go_meaning.specs.declared.node.CommClause.{CommClause};
ghost use Rattle.go_meaning.specs.Acts as acts;

use crate::items::{push_assignments, push_comms, push_eval, push_evals, push_part, push_simple};
use go_meaning::{Act, CommClause, Expr, Item, NodeForm, Simple, Stack, Value};
use go_value::{Int, Kind};
use std::alloc::{AllocError, Global};

// What follows the statement at a place.
fn following(alloc: Global, list: u64, index: u64) -> Result<Stack<Item>, AllocError>
    requires { index + 1 < 2 ^ 64 }
    ensures { IfOk result (λ items. items ≡ Item.Run list (suc index) ∷ []) }
{
    let mut items = Stack::new(alloc);
    items.push(Item::Run(list, index + 1))?;
    Ok(items)
}

// A part that may be left out, an expression, and an item after them.
fn parts(
    alloc: Global,
    mut items: Stack<Item>,
    first: &Option<Simple>,
    e: &Expr,
    last: Item,
) -> Result<Act, AllocError>
    ensures { IfOk result (λ a. a ≡ Act.Replaces 0 (acts.part first.now ++ (Item.Eval e.now ∷ last ∷ items))) }
{
    items.push(last)?;
    push_eval(alloc, &mut items, e)?;
    push_part(alloc, &mut items, first)?;
    Ok(Act::Replaces(0, items))
}

// Expressions, and an item after them.
fn evaluated(
    alloc: Global,
    mut items: Stack<Item>,
    es: &[Expr],
    last: Item,
) -> Result<Act, AllocError>
    ensures { IfOk result (λ a. a ≡ Act.Replaces 0 (map Item.Eval es.now ++ (last ∷ items))) }
{
    items.push(last)?;
    push_evals(alloc, &mut items, es)?;
    Ok(Act::Replaces(0, items))
}

// The operands of the clauses of a `select`, and an item after them.
fn selected(
    alloc: Global,
    mut items: Stack<Item>,
    clauses: &[CommClause],
    last: Item,
) -> Result<Act, AllocError>
    ensures { IfOk result (λ a. a ≡ Act.Replaces 0 ((flat_map (λ (c : CommClause). acts.comm_items c.comm) clauses.now ++ last ∷ []) ++ items)) }
{
    items.push(last)?;
    push_comms(alloc, &mut items, clauses)?;
    Ok(Act::Replaces(0, items))
}

/// What the statement at a place does: the number of its list, and its index there.
pub fn statement(alloc: Global, list: u64, index: u64, form: &NodeForm) -> Result<Act, AllocError>
    requires { index + 1 < 2 ^ 64 }
    ensures { IfOk result (λ a. a ≡ acts.statement list index form.now) }
{
    let mut items = following(alloc, list, index)?;
    match form {
        NodeForm::Const => Ok(Act::Replaces(0, items)),
        NodeForm::Var(assignments) => {
            push_assignments(alloc, &mut items, assignments.as_slice())?;
            Ok(Act::Replaces(0, items))
        }
        NodeForm::Simple(simple) => {
            push_simple(alloc, &mut items, simple)?;
            Ok(Act::Replaces(0, items))
        }
        NodeForm::Block { list: inner, .. } => {
            items.push(Item::Run(*inner, 0))?;
            Ok(Act::Replaces(0, items))
        }
        NodeForm::If {
            first,
            test,
            then,
            other,
        } => parts(alloc, items, first, test, Item::Branch(*then, *other)),
        NodeForm::For { first, .. } => {
            items.push(Item::Loop(list, index))?;
            push_part(alloc, &mut items, first)?;
            Ok(Act::Replaces(0, items))
        }
        NodeForm::RangeText { over, .. } => {
            items.push(Item::Each(list, index))?;
            items.push(Item::Eval(Expr::Value(Value::Number(Int::wrapped(Kind::I64, 0)))))?;
            push_eval(alloc, &mut items, over)?;
            Ok(Act::Replaces(0, items))
        }
        NodeForm::RangeChannel { over, .. } => {
            items.push(Item::Pull(list, index))?;
            push_eval(alloc, &mut items, over)?;
            Ok(Act::Replaces(0, items))
        }
        NodeForm::Switch { first, tag, .. } => {
            parts(alloc, items, first, tag, Item::Match(list, index, 0))
        }
        NodeForm::Select(clauses) => {
            selected(alloc, items, clauses.as_slice(), Item::Pick(list, index))
        }
        NodeForm::Return(values, results) => {
            evaluated(alloc, items, values.as_slice(), Item::Return(*results))
        }
        NodeForm::Go(function, args) => {
            evaluated(alloc, items, args.as_slice(), Item::Spawn(*function))
        }
        NodeForm::Defer(call, args) => {
            evaluated(alloc, items, args.as_slice(), Item::Defer(*call))
        }
        NodeForm::Break(marks) => Ok(Act::Breaks(*marks)),
        NodeForm::Continue(marks) => Ok(Act::Continues(*marks)),
        NodeForm::Fallthrough(next) => Ok(Act::Falls(*next)),
        NodeForm::Count(_) => Ok(Act::Waits),
    }
}
