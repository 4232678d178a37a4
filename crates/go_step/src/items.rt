//! Items of simple statements, before items that follow them.
ghost use Rattle.std.specs.Prelude.{◌≡◌, [], ◌∷◌, ◌++◌, IfOk, OnOk, map, flat_map};
ghost use Rattle.go_meaning.specs.Acts as acts;
ghost use Rattle.go_meaning.specs.declared.node.CommClause.{CommClause};

use crate::copies::{copy_expr, copy_op};
use go_meaning::{Assignment, Comm, CommClause, Expr, Item, Simple, Stack, Target};
use std::alloc::{AllocError, Global};

/// Evaluates an expression first.
pub fn push_eval(alloc: Global, items: &mut Stack<Item>, e: &Expr) -> Result<(), AllocError>
    ensures { OnOk result (items.new ≡ Item.Eval e.now ∷ items.old) }
{
    items.push(Item::Eval(copy_expr(alloc, e)?))?;
    Ok(())
}

/// Evaluates expressions first, from left to right.
pub fn push_evals(alloc: Global, items: &mut Stack<Item>, es: &[Expr]) -> Result<(), AllocError>
    ensures { OnOk result (items.new ≡ map Item.Eval es.now ++ items.old) }
{
    for k in 0..es.len() {
        push_eval(alloc, items, &es[es.len() - 1 - k])?;
    }
    Ok(())
}

/// Targets as a stack, the first on top.
pub fn stacked(alloc: Global, targets: &[Target]) -> Result<Stack<Target>, AllocError>
    ensures { IfOk result (λ s. s ≡ targets.now) }
{
    let mut stack = Stack::new(alloc);
    for k in 0..targets.len() {
        stack.push(targets[targets.len() - 1 - k])?;
    }
    Ok(stack)
}

fn push_assignment(
    alloc: Global,
    items: &mut Stack<Item>,
    assignment: &Assignment,
) -> Result<(), AllocError>
    ensures { OnOk result (items.new ≡ acts.assignment assignment.now ++ items.old) }
{
    items.push(Item::Assign(stacked(alloc, assignment.targets.as_slice())?))?;
    push_evals(alloc, items, assignment.values.as_slice())
}

/// Assignments, in order.
pub fn push_assignments(
    alloc: Global,
    items: &mut Stack<Item>,
    assignments: &[Assignment],
) -> Result<(), AllocError>
    ensures { OnOk result (items.new ≡ flat_map acts.assignment assignments.now ++ items.old) }
{
    for k in 0..assignments.len() {
        push_assignment(alloc, items, &assignments[assignments.len() - 1 - k])?;
    }
    Ok(())
}

/// A simple statement.
pub fn push_simple(
    alloc: Global,
    items: &mut Stack<Item>,
    simple: &Simple,
) -> Result<(), AllocError>
    ensures { OnOk result (items.new ≡ acts.simple_items simple.now ++ items.old) }
{
    match simple {
        Simple::Eval { value, results, .. } => {
            items.push(Item::Drop(*results))?;
            push_eval(alloc, items, value)
        }
        Simple::Send(channel, value) => {
            items.push(Item::Send)?;
            push_eval(alloc, items, value)?;
            push_eval(alloc, items, channel)
        }
        Simple::Update(variable, op, value) => {
            let mut targets = Stack::new(alloc);
            targets.push(Target::Variable(*variable))?;
            items.push(Item::Assign(targets))?;
            items.push(Item::Do(copy_op(op)?))?;
            push_eval(alloc, items, value)?;
            items.push(Item::Eval(Expr::Variable(*variable)))
        }
        Simple::Assign(assignment) => push_assignment(alloc, items, assignment),
    }
}

/// A part of a statement that may be left out.
pub fn push_part(
    alloc: Global,
    items: &mut Stack<Item>,
    part: &Option<Simple>,
) -> Result<(), AllocError>
    ensures { OnOk result (items.new ≡ acts.part part.now ++ items.old) }
{
    match part {
        Some(simple) => push_simple(alloc, items, simple),
        None => Ok(()),
    }
}

fn push_comm(alloc: Global, items: &mut Stack<Item>, comm: &Comm) -> Result<(), AllocError>
    ensures { OnOk result (items.new ≡ acts.comm_items comm.now ++ items.old) }
{
    match comm {
        Comm::Default => Ok(()),
        Comm::Send(channel, value) => {
            push_eval(alloc, items, value)?;
            push_eval(alloc, items, channel)
        }
        Comm::Receive { channel, .. } => push_eval(alloc, items, channel),
    }
}

/// The operands of the clauses of a `select`, in order.
pub fn push_comms(
    alloc: Global,
    items: &mut Stack<Item>,
    clauses: &[CommClause],
) -> Result<(), AllocError>
    ensures { OnOk result (items.new ≡ flat_map (λ (c : CommClause). acts.comm_items c.comm) clauses.now ++ items.old) }
{
    for k in 0..clauses.len() {
        push_comm(alloc, items, &clauses[clauses.len() - 1 - k].comm)?;
    }
    Ok(())
}
