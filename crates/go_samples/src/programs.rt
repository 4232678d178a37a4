//! Programs.
ghost use Rattle.std.specs.Prelude.{◌≡◌, [], ◌∷◌, IfOk, pos};
ghost use Rattle.go_meaning.specs.WellFormed.{IsProgram};
ghost use Rattle.go_samples.specs.Samples as samples;

use crate::parts::{
    function, int, on_one, on_two, one, program, program_with_group, push, sets, slot, text,
};
use go_meaning::{Expr, Function, Node, NodeForm, Op, Program, Relation, Simple, Value};
use go_value::{Int, IntOp, Kind};
use sqlite_items::Items;
use std::alloc::{AllocError, Global};

fn main_function(alloc: Global, slots: u64) -> Result<Items<Function>, AllocError>
    ensures { IfOk result (λ fs. fs ≡ samples.main_function slots ∷ []) }
{
    let mut functions = Items::new(alloc);
    functions.push(function(alloc, b"main", slots, 0)?)?;
    Ok(functions)
}

fn two_functions(alloc: Global) -> Result<Items<Function>, AllocError>
    ensures { IfOk result (λ fs. fs ≡ samples.two_functions) }
{
    let mut functions = Items::new(alloc);
    functions.push(function(alloc, b"main", 0, 0)?)?;
    functions.push(function(alloc, b"f", 0, 2)?)?;
    Ok(functions)
}

// `c := make(chan int)`
fn make(alloc: Global) -> Result<NodeForm, AllocError>
    ensures { IfOk result (λ f. f ≡ samples.make) }
{
    let zero = Value::Number(Int::wrapped(Kind::I64, 0));
    let make = Expr::Apply(Op::Make { zero, sized: false }, Items::new(alloc));
    Ok(NodeForm::Simple(sets(alloc, 0, make)?))
}

fn sending_lists(alloc: Global) -> Result<Items<Items<Node>>, AllocError>
    ensures { IfOk result (λ ls. ls ≡ samples.sending) }
{
    let mut list = Items::new(alloc);
    push(&mut list, make(alloc)?)?;
    push(&mut list, NodeForm::Simple(Simple::Send(slot(0), int(1))))?;
    let mut lists = Items::new(alloc);
    lists.push(list)?;
    Ok(lists)
}

/// `c := make(chan int)` and `c <- 1`.
pub fn sending(alloc: Global) -> Result<Program, AllocError>
    ensures { IfOk result (λ p. p ≡ samples.program (samples.main_function 1 ∷ []) samples.sending) }
{
    let lists = sending_lists(alloc)?;
    let functions = main_function(alloc, 1)?;
    program(alloc, functions, lists)
}

// `i < count`
fn below(alloc: Global, count: u32) -> Result<Expr, AllocError>
    ensures { IfOk result (λ e. e ≡ samples.below (pos count)) }
{
    on_two(
        alloc,
        Op::Compare(Relation::Less),
        slot(0),
        int(i128::from(count)),
    )
}

// `i = i + 1`
fn goes_up(alloc: Global) -> Result<Simple, AllocError>
    ensures { IfOk result (λ s. s ≡ samples.goes_up) }
{
    sets(
        alloc,
        0,
        on_two(alloc, Op::Arithmetic(IntOp::Add), slot(0), int(1))?,
    )
}

// `for i := 0; i < count; i = i + 1 { }` with the list of its body.
fn counts_to(alloc: Global, count: u32, body: u64) -> Result<NodeForm, AllocError>
    ensures { IfOk result (λ f. f ≡ samples.counts_to (pos count) body) }
{
    let first = Some(sets(alloc, 0, int(0))?);
    let test = Some(below(alloc, count)?);
    let last = Some(goes_up(alloc)?);
    Ok(NodeForm::For {
        first,
        test,
        last,
        body,
    })
}

fn counting_lists(alloc: Global, count: u32) -> Result<Items<Items<Node>>, AllocError>
    ensures { IfOk result (λ ls. ls ≡ samples.counting (pos count)) }
{
    let mut lists = Items::new(alloc);
    lists.push(one(alloc, counts_to(alloc, count, 1)?)?)?;
    lists.push(Items::new(alloc))?;
    Ok(lists)
}

/// `for i := 0; i < count; i = i + 1 { }`.
pub fn counting(alloc: Global, count: u32) -> Result<Program, AllocError>
    ensures { IfOk result (λ p. p ≡ samples.program (samples.main_function 1 ∷ []) (samples.counting (pos count))) }
{
    let lists = counting_lists(alloc, count)?;
    let functions = main_function(alloc, 1)?;
    program(alloc, functions, lists)
}

// `for { }` with the list of its body.
fn forever(body: u64) -> NodeForm
    ensures { result ≡ samples.forever body }
{
    NodeForm::For {
        first: None,
        test: None,
        last: None,
        body,
    }
}

fn spinning_lists(alloc: Global) -> Result<Items<Items<Node>>, AllocError>
    ensures { IfOk result (λ ls. ls ≡ samples.spinning) }
{
    let mut list = Items::new(alloc);
    push(&mut list, NodeForm::Go(1, Items::new(alloc)))?;
    push(&mut list, forever(1))?;
    let mut lists = Items::new(alloc);
    lists.push(list)?;
    lists.push(Items::new(alloc))?;
    lists.push(one(alloc, forever(3))?)?;
    lists.push(Items::new(alloc))?;
    Ok(lists)
}

/// `go f()` and `for { }`, where `f` is `for { }`.
#[tactic(auto, using(crate::proofs::InRange::spinning_is))]
pub fn spinning(alloc: Global) -> Result<Program, AllocError>
    ensures { IfOk result (λ p. p ≡ samples.program samples.two_functions samples.spinning) }
{
    let lists = spinning_lists(alloc)?;
    let functions = two_functions(alloc)?;
    program(alloc, functions, lists)
}

fn turning_functions(alloc: Global) -> Result<Items<Function>, AllocError>
    ensures { IfOk result (λ fs. fs ≡ samples.turning_functions) }
{
    let mut functions = Items::new(alloc);
    functions.push(function(alloc, b"main", 1, 0)?)?;
    functions.push(function(alloc, b"f", 1, 2)?)?;
    Ok(functions)
}

fn turning_main(alloc: Global) -> Result<Items<Node>, AllocError>
    ensures { IfOk result (λ l. l ≡ samples.turning_main) }
{
    let mut list = Items::new(alloc);
    push(&mut list, NodeForm::Go(1, Items::new(alloc)))?;
    push(&mut list, counts_to(alloc, 76, 1)?)?;
    push(&mut list, NodeForm::Select(Items::new(alloc)))?;
    Ok(list)
}

fn turning_work(alloc: Global) -> Result<Items<Node>, AllocError>
    ensures { IfOk result (λ l. l ≡ samples.turning_work) }
{
    let mut list = Items::new(alloc);
    push(&mut list, counts_to(alloc, 76, 3)?)?;
    push(&mut list, NodeForm::Const)?;
    Ok(list)
}

fn turning_lists(alloc: Global) -> Result<Items<Items<Node>>, AllocError>
    ensures { IfOk result (λ ls. ls ≡ samples.turning) }
{
    let mut lists = Items::new(alloc);
    lists.push(turning_main(alloc)?)?;
    lists.push(Items::new(alloc))?;
    lists.push(turning_work(alloc)?)?;
    lists.push(Items::new(alloc))?;
    Ok(lists)
}

/// `main` and the function that it starts, which take 1,001 steps each: `go f()`, a loop of 76 turns and an empty
/// `select`, where `f` is such a loop and a constant.
pub fn turning(alloc: Global) -> Result<Program, AllocError>
    ensures { IfOk result (λ p. p ≡ samples.program samples.turning_functions samples.turning) }
{
    let lists = turning_lists(alloc)?;
    let functions = turning_functions(alloc)?;
    program(alloc, functions, lists)
}

// `s = s + more`, where `s` is the second variable.
fn adds(alloc: Global, more: Expr) -> Result<NodeForm, AllocError>
    ensures { IfOk result (λ f. f ≡ samples.adds more) }
{
    let sum = on_two(alloc, Op::Join, slot(1), more)?;
    Ok(NodeForm::Simple(sets(alloc, 1, sum)?))
}

// `s := "a"`
fn starts(alloc: Global) -> Result<NodeForm, AllocError>
    ensures { IfOk result (λ f. f ≡ samples.starts) }
{
    let a = text(alloc, b"a")?;
    Ok(NodeForm::Simple(sets(alloc, 1, a)?))
}

// `fmt.Println(len(s))`
fn shows_length(alloc: Global) -> Result<NodeForm, AllocError>
    ensures { IfOk result (λ f. f ≡ samples.shows_length) }
{
    let len = on_one(alloc, Op::Len, slot(1))?;
    Ok(NodeForm::Simple(Simple::Eval {
        value: on_one(alloc, Op::Println(1), len)?,
        results: 0,
        panics: false,
    }))
}

fn doubling_body(alloc: Global) -> Result<Items<Node>, AllocError>
    ensures { IfOk result (λ l. l ≡ samples.doubling_body) }
{
    let mut list = Items::new(alloc);
    push(&mut list, starts(alloc)?)?;
    push(&mut list, counts_to(alloc, 20, 1)?)?;
    push(&mut list, shows_length(alloc)?)?;
    push(&mut list, adds(alloc, text(alloc, b"a")?)?)?;
    Ok(list)
}

fn doubling_lists(alloc: Global) -> Result<Items<Items<Node>>, AllocError>
    ensures { IfOk result (λ ls. ls ≡ samples.doubling) }
{
    let mut lists = Items::new(alloc);
    lists.push(doubling_body(alloc)?)?;
    lists.push(one(alloc, adds(alloc, slot(1))?)?)?;
    Ok(lists)
}

/// `s := "a"`, `for i := 0; i < 20; i = i + 1 { s = s + s }`, `fmt.Println(len(s))` and `s = s + "a"`.
pub fn doubling(alloc: Global) -> Result<Program, AllocError>
    ensures { IfOk result (λ p. p ≡ samples.program (samples.main_function 2 ∷ []) samples.doubling) }
{
    let lists = doubling_lists(alloc)?;
    let functions = main_function(alloc, 2)?;
    program(alloc, functions, lists)
}

// An operation that is a statement.
fn does(op: Op, operands: Items<Expr>) -> NodeForm
    ensures { result ≡ samples.does op operands }
{
    NodeForm::Simple(Simple::Eval {
        value: Expr::Apply(op, operands),
        results: 0,
        panics: false,
    })
}

// A call without arguments that is a statement.
fn calls(alloc: Global, function: u64) -> NodeForm
    ensures { result ≡ samples.calls function }
{
    NodeForm::Simple(Simple::Eval {
        value: Expr::Call(function, Items::new(alloc)),
        results: 0,
        panics: false,
    })
}

fn work_body(alloc: Global) -> Result<Items<Node>, AllocError>
    ensures { IfOk result (λ l. l ≡ samples.work_body) }
{
    let mut list = Items::new(alloc);
    push(&mut list, counts_to(alloc, 1000, 1)?)?;
    push(&mut list, does(Op::Done(0), Items::new(alloc)))?;
    Ok(list)
}

// `group.Add(2)`
fn adds_two(alloc: Global) -> Result<NodeForm, AllocError>
    ensures { IfOk result (λ f. f ≡ samples.adds_two) }
{
    let mut operands = Items::new(alloc);
    operands.push(int(2))?;
    Ok(does(Op::Add(0), operands))
}

fn working_main(alloc: Global) -> Result<Items<Node>, AllocError>
    ensures { IfOk result (λ l. l ≡ samples.working_main) }
{
    let mut list = Items::new(alloc);
    push(&mut list, adds_two(alloc)?)?;
    push(&mut list, NodeForm::Go(0, Items::new(alloc)))?;
    push(&mut list, NodeForm::Go(0, Items::new(alloc)))?;
    push(&mut list, does(Op::Wait(0), Items::new(alloc)))?;
    Ok(list)
}

fn working_lists(alloc: Global) -> Result<Items<Items<Node>>, AllocError>
    ensures { IfOk result (λ ls. ls ≡ samples.working) }
{
    let mut lists = Items::new(alloc);
    lists.push(work_body(alloc)?)?;
    lists.push(one(alloc, calls(alloc, 1))?)?;
    lists.push(Items::new(alloc))?;
    lists.push(working_main(alloc)?)?;
    Ok(lists)
}

fn working_functions(alloc: Global) -> Result<Items<Function>, AllocError>
    ensures { IfOk result (λ fs. fs ≡ samples.working_functions) }
{
    let mut functions = Items::new(alloc);
    functions.push(function(alloc, b"work", 1, 0)?)?;
    functions.push(function(alloc, b"step", 0, 2)?)?;
    functions.push(function(alloc, b"main", 0, 3)?)?;
    Ok(functions)
}

/// Two goroutines that each call a function 1,000 times, for which `main` waits.
pub fn working(alloc: Global) -> Result<Program, AllocError>
    ensures { IfOk result (λ p. p ≡ samples.program_with_group 2 samples.working_functions samples.working) }
{
    let lists = working_lists(alloc)?;
    let functions = working_functions(alloc)?;
    program_with_group(alloc, 2, functions, lists)
}
