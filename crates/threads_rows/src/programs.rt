//! Programs with goroutines.
ghost use Rattle.std.specs.Prelude.{◌≡◌, ◌++◌, ◌∷◌, [], IfOk, OnOk};
ghost use Rattle.go_samples.specs.Samples as samples;
ghost use Rattle.threads_rows.specs.Rows as rows;

use crate::parts::{
    calls, counts_to, does, does_with, forever, function, one, program_with_group, push, text,
};
use go_meaning::{Expr, Function, Node, NodeForm, Op, Program, Simple};
use sqlite_items::Items;
use std::alloc::{AllocError, Global};

fn crowd_functions(alloc: Global) -> Result<Items<Function>, AllocError>
    ensures { IfOk result (λ fs. fs ≡ samples.working_functions) }
{
    let mut functions = Items::new(alloc);
    functions.push(function(alloc, b"work", 1, 0)?)?;
    functions.push(function(alloc, b"step", 0, 2)?)?;
    functions.push(function(alloc, b"main", 0, 3)?)?;
    Ok(functions)
}

fn work_body(alloc: Global) -> Result<Items<Node>, AllocError>
    ensures { IfOk result (λ l. l ≡ samples.work_body) }
{
    let mut list = Items::new(alloc);
    push(&mut list, counts_to(alloc, 1000, 1)?)?;
    push(&mut list, does(Op::Done(0), Items::new(alloc)))?;
    Ok(list)
}

// `go f()`, where `f` is the first function.
fn starts(alloc: Global) -> NodeForm
    ensures { result ≡ rows.starts_work }
{
    NodeForm::Go(0, Items::new(alloc))
}

fn four_starts(alloc: Global, list: &mut Items<Node>) -> Result<(), AllocError>
    ensures { OnOk result (list.new ≡ list.old ++ samples.statements rows.four_starts) }
{
    push(list, starts(alloc))?;
    push(list, starts(alloc))?;
    push(list, starts(alloc))?;
    push(list, starts(alloc))
}

fn crowd_main(alloc: Global) -> Result<Items<Node>, AllocError>
    ensures { IfOk result (λ l. l ≡ rows.crowd_main) }
{
    let mut list = Items::new(alloc);
    push(&mut list, does_with(alloc, Op::Add(0), 8)?)?;
    four_starts(alloc, &mut list)?;
    four_starts(alloc, &mut list)?;
    push(&mut list, does(Op::Wait(0), Items::new(alloc)))?;
    Ok(list)
}

fn crowd_lists(alloc: Global) -> Result<Items<Items<Node>>, AllocError>
    ensures { IfOk result (λ ls. ls ≡ rows.crowd_lists) }
{
    let mut lists = Items::new(alloc);
    lists.push(work_body(alloc)?)?;
    lists.push(one(alloc, calls(alloc, 1))?)?;
    lists.push(Items::new(alloc))?;
    lists.push(crowd_main(alloc)?)?;
    Ok(lists)
}

/// Eight goroutines that each call a function 1,000 times, for which `main` waits.
pub(crate) fn crowd(alloc: Global) -> Result<Program, AllocError>
    ensures { IfOk result (λ p. p ≡ rows.crowd) }
{
    let lists = crowd_lists(alloc)?;
    let functions = crowd_functions(alloc)?;
    program_with_group(alloc, 2, functions, lists)
}

fn two_functions(alloc: Global, body: u64) -> Result<Items<Function>, AllocError>
    ensures { IfOk result (λ fs. fs ≡ rows.two_functions body) }
{
    let mut functions = Items::new(alloc);
    functions.push(function(alloc, b"f", 0, 0)?)?;
    functions.push(function(alloc, b"main", 0, body)?)?;
    Ok(functions)
}

fn waiting_main(alloc: Global) -> Result<Items<Node>, AllocError>
    ensures { IfOk result (λ l. l ≡ rows.waiting_main) }
{
    let mut list = Items::new(alloc);
    push(&mut list, does_with(alloc, Op::Add(0), 1)?)?;
    push(&mut list, starts(alloc))?;
    push(&mut list, does(Op::Wait(0), Items::new(alloc)))?;
    Ok(list)
}

fn waiting_lists(alloc: Global, f: Items<Node>) -> Result<Items<Items<Node>>, AllocError>
    ensures { IfOk result (λ ls. ls ≡ f ∷ rows.waiting_main ∷ []) }
{
    let mut lists = Items::new(alloc);
    lists.push(f)?;
    lists.push(waiting_main(alloc)?)?;
    Ok(lists)
}

/// `main` waits for a goroutine that never tells that it is done.
pub(crate) fn stuck(alloc: Global) -> Result<Program, AllocError>
    ensures { IfOk result (λ p. p ≡ rows.stuck) }
{
    let body = Items::new(alloc);
    let lists = waiting_lists(alloc, body)?;
    let functions = two_functions(alloc, 1)?;
    program_with_group(alloc, 1, functions, lists)
}

fn finishing_body(alloc: Global) -> Result<Items<Node>, AllocError>
    ensures { IfOk result (λ l. l ≡ rows.finishing_body) }
{
    one(alloc, does(Op::Done(0), Items::new(alloc)))
}

/// `main` waits for a goroutine that tells that it is done.
pub(crate) fn finishing(alloc: Global) -> Result<Program, AllocError>
    ensures { IfOk result (λ p. p ≡ rows.finishing) }
{
    let body = finishing_body(alloc)?;
    let lists = waiting_lists(alloc, body)?;
    let functions = two_functions(alloc, 1)?;
    program_with_group(alloc, 1, functions, lists)
}

// `panic("x")`
fn panics(alloc: Global) -> Result<NodeForm, AllocError>
    ensures { IfOk result (λ f. f ≡ rows.panics) }
{
    let mut operands = Items::new(alloc);
    operands.push(text(alloc, b"x")?)?;
    Ok(NodeForm::Simple(Simple::Eval {
        value: Expr::Apply(Op::Panic, operands),
        results: 0,
        panics: true,
    }))
}

fn failing_body(alloc: Global) -> Result<Items<Node>, AllocError>
    ensures { IfOk result (λ l. l ≡ rows.failing_body) }
{
    one(alloc, panics(alloc)?)
}

/// `main` waits for a goroutine that panics.
pub(crate) fn failing(alloc: Global) -> Result<Program, AllocError>
    ensures { IfOk result (λ p. p ≡ rows.failing) }
{
    let body = failing_body(alloc)?;
    let lists = waiting_lists(alloc, body)?;
    let functions = two_functions(alloc, 1)?;
    program_with_group(alloc, 1, functions, lists)
}

fn leaving_main(alloc: Global) -> Result<Items<Node>, AllocError>
    ensures { IfOk result (λ l. l ≡ rows.leaving_main) }
{
    let mut list = Items::new(alloc);
    push(&mut list, starts(alloc))?;
    push(&mut list, starts(alloc))?;
    push(&mut list, does_with(alloc, Op::Exit, 3)?)?;
    Ok(list)
}

fn leaving_lists(alloc: Global) -> Result<Items<Items<Node>>, AllocError>
    ensures { IfOk result (λ ls. ls ≡ rows.leaving_lists) }
{
    let mut lists = Items::new(alloc);
    lists.push(one(alloc, forever(1))?)?;
    lists.push(Items::new(alloc))?;
    lists.push(leaving_main(alloc)?)?;
    Ok(lists)
}

/// `main` starts two goroutines that loop for ever, and exits with 3.
pub(crate) fn leaving(alloc: Global) -> Result<Program, AllocError>
    ensures { IfOk result (λ p. p ≡ rows.leaving) }
{
    let lists = leaving_lists(alloc)?;
    let functions = two_functions(alloc, 2)?;
    program_with_group(alloc, 1, functions, lists)
}
