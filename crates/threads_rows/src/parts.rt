//! Parts of programs.
ghost use Rattle.std.specs.Prelude.{◌≡◌, [], ◌∷◌, ◌++◌, IfOk, OnOk, pos};
ghost use Rattle.go_meaning.specs.WellFormed.{IsProgram};
ghost use Rattle.go_samples.specs.Samples as samples;

use go_ast::{Span, Text};
use go_meaning::{
    Assignment, Expr, Function, Global as PackageVariable, Node, NodeForm, Op, Program,
    ProgramPackage, Relation, Simple, Target, Value, Variable,
};
use go_value::{Int, IntOp, Kind};
use sqlite_items::Items;
use std::alloc::{AllocError, Global};

// Adds a statement.
pub(crate) fn push(list: &mut Items<Node>, form: NodeForm) -> Result<(), AllocError>
    ensures { OnOk result (list.new ≡ list.old ++ samples.statement form ∷ []) }
{
    let span = Span { start: 0, end: 0 };
    list.push(Node { span, form })
}

// A list of one statement.
pub(crate) fn one(alloc: Global, form: NodeForm) -> Result<Items<Node>, AllocError>
    ensures { IfOk result (λ l. l ≡ samples.statements (form ∷ [])) }
{
    let mut list = Items::new(alloc);
    push(&mut list, form)?;
    Ok(list)
}

// A function without parameters and results.
pub(crate) fn function(
    alloc: Global,
    name: &[u8],
    slots: u64,
    body: u64,
) -> Result<Function, AllocError>
    ensures { IfOk result (λ f. f ≡ samples.function name.now slots body) }
{
    Ok(Function {
        name: Text::of(alloc, name)?,
        params: 0,
        results: 0,
        slots,
        body,
    })
}

fn one_package(alloc: Global, functions: u64) -> Result<Items<ProgramPackage>, AllocError>
    ensures { IfOk result (λ ps. ps ≡ samples.package_of functions ∷ []) }
{
    let mut packages = Items::new(alloc);
    packages.push(ProgramPackage {
        path: Text::of(alloc, b"m")?,
        name: Text::of(alloc, b"main")?,
        functions,
    })?;
    Ok(packages)
}

// The program of these functions, of which `main` has a number, and lists, with one wait group.
pub(crate) fn program_with_group(
    alloc: Global,
    main: u64,
    functions: Items<Function>,
    lists: Items<Items<Node>>,
) -> Result<Program, AllocError>
    requires { IsProgram (samples.program_with_group main functions lists) }
    ensures { IfOk result (λ p. p ≡ samples.program_with_group main functions lists) }
{
    let mut globals = Items::new(alloc);
    globals.push(PackageVariable::Group)?;
    let packages = one_package(alloc, functions.len() as u64)?;
    Ok(Program::new(packages, functions, lists, globals, 0, main))
}

fn slot(slot: u64) -> Expr
    ensures { result ≡ samples.slot slot }
{
    Expr::Variable(Variable::Slot(slot))
}

pub(crate) fn int(value: i128) -> Expr
    ensures { result ≡ samples.int value }
{
    Expr::Value(Value::Number(Int::wrapped(Kind::I64, value)))
}

pub(crate) fn text(alloc: Global, bytes: &[u8]) -> Result<Expr, AllocError>
    ensures { IfOk result (λ e. e ≡ samples.text bytes.now) }
{
    Ok(Expr::Value(Value::Text(Text::of(alloc, bytes)?)))
}

// An operation on the first variable and a number.
fn with_number(alloc: Global, op: Op, number: i128) -> Result<Expr, AllocError>
    ensures { IfOk result (λ e. e ≡ samples.applied op (samples.slot 0 ∷ samples.int number ∷ [])) }
{
    let mut operands = Items::new(alloc);
    operands.push(slot(0))?;
    operands.push(int(number))?;
    Ok(Expr::Apply(op, operands))
}

// The assignment of a value to the first variable.
fn sets(alloc: Global, value: Expr) -> Result<Simple, AllocError>
    ensures { IfOk result (λ s. s ≡ samples.sets 0 value) }
{
    let mut targets = Items::new(alloc);
    targets.push(Target::Variable(Variable::Slot(0)))?;
    let mut values = Items::new(alloc);
    values.push(value)?;
    Ok(Simple::Assign(Assignment { targets, values }))
}

// `for i := 0; i < count; i = i + 1 { }` with the list of its body.
pub(crate) fn counts_to(alloc: Global, count: u32, body: u64) -> Result<NodeForm, AllocError>
    ensures { IfOk result (λ f. f ≡ samples.counts_to (pos count) body) }
{
    let first = Some(sets(alloc, int(0))?);
    let test = Some(with_number(alloc, Op::Compare(Relation::Less), i128::from(count))?);
    let more = with_number(alloc, Op::Arithmetic(IntOp::Add), 1)?;
    let last = Some(sets(alloc, more)?);
    Ok(NodeForm::For {
        first,
        test,
        last,
        body,
    })
}

// `for { }` with the list of its body.
pub(crate) fn forever(body: u64) -> NodeForm
    ensures { result ≡ samples.forever body }
{
    NodeForm::For {
        first: None,
        test: None,
        last: None,
        body,
    }
}

// An operation that is a statement.
pub(crate) fn does(op: Op, operands: Items<Expr>) -> NodeForm
    ensures { result ≡ samples.does op operands }
{
    NodeForm::Simple(Simple::Eval {
        value: Expr::Apply(op, operands),
        results: 0,
        panics: false,
    })
}

// An operation on a number that is a statement.
pub(crate) fn does_with(alloc: Global, op: Op, number: i128) -> Result<NodeForm, AllocError>
    ensures { IfOk result (λ f. f ≡ samples.does op (samples.int number ∷ [])) }
{
    let mut operands = Items::new(alloc);
    operands.push(int(number))?;
    Ok(does(op, operands))
}

// A call without arguments that is a statement.
pub(crate) fn calls(alloc: Global, function: u64) -> NodeForm
    ensures { result ≡ samples.calls function }
{
    NodeForm::Simple(Simple::Eval {
        value: Expr::Call(function, Items::new(alloc)),
        results: 0,
        panics: false,
    })
}
