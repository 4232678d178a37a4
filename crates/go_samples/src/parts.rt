//! Parts of programs.
ghost use Rattle.std.specs.Prelude.{◌≡◌, [], ◌∷◌, ◌++◌, IfOk, OnOk};
ghost use Rattle.go_meaning.specs.WellFormed.{IsProgram};
ghost use Rattle.go_samples.specs.Samples as samples;

use go_ast::{Span, Text};
use go_meaning::{
    Assignment, Expr, Function, Global as PackageVariable, Node, NodeForm, Op, Program,
    ProgramPackage, Simple, Target, Value, Variable,
};
use go_value::{Int, Kind};
use sqlite_items::Items;
use std::alloc::{AllocError, Global};

pub fn statement(form: NodeForm) -> Node
    ensures { result ≡ samples.statement form }
{
    Node {
        span: Span { start: 0, end: 0 },
        form,
    }
}

/// A list of one statement.
pub fn one(alloc: Global, form: NodeForm) -> Result<Items<Node>, AllocError>
    ensures { IfOk result (λ l. l ≡ samples.statements (form ∷ [])) }
{
    let mut list = Items::new(alloc);
    list.push(statement(form))?;
    Ok(list)
}

/// Adds a statement.
pub fn push(list: &mut Items<Node>, form: NodeForm) -> Result<(), AllocError>
    ensures { OnOk result (list.new ≡ list.old ++ samples.statement form ∷ []) }
{
    list.push(statement(form))
}

/// A function without parameters and results.
pub fn function(alloc: Global, name: &[u8], slots: u64, body: u64) -> Result<Function, AllocError>
    ensures { IfOk result (λ f. f ≡ samples.function name.now slots body) }
{
    Ok(Function {
        name: Text::of(alloc, name)?,
        params: 0,
        results: 0,
        slots,
        body,
    })
}

fn one_package(alloc: Global, functions: u64) -> Result<Items<ProgramPackage>, AllocError>
    ensures { IfOk result (λ ps. ps ≡ samples.package_of functions ∷ []) }
{
    let mut packages = Items::new(alloc);
    packages.push(ProgramPackage {
        path: Text::of(alloc, b"m")?,
        name: Text::of(alloc, b"main")?,
        functions,
    })?;
    Ok(packages)
}

/// The program of these functions, of which the first is `main`, and lists.
pub fn program(
    alloc: Global,
    functions: Items<Function>,
    lists: Items<Items<Node>>,
) -> Result<Program, AllocError>
    requires { IsProgram (samples.program functions lists) }
    ensures { IfOk result (λ p. p ≡ samples.program functions lists) }
{
    let packages = one_package(alloc, functions.len() as u64)?;
    Ok(Program::new(packages, functions, lists, Items::new(alloc), 0, 0))
}

pub fn slot(slot: u64) -> Expr
    ensures { result ≡ samples.slot slot }
{
    Expr::Variable(Variable::Slot(slot))
}

pub fn int(value: i128) -> Expr
    ensures { result ≡ samples.int value }
{
    Expr::Value(Value::Number(Int::wrapped(Kind::I64, value)))
}

/// An operation on one operand.
pub fn on_one(alloc: Global, op: Op, operand: Expr) -> Result<Expr, AllocError>
    ensures { IfOk result (λ e. e ≡ samples.applied op (operand ∷ [])) }
{
    let mut operands = Items::new(alloc);
    operands.push(operand)?;
    Ok(Expr::Apply(op, operands))
}

/// An operation on two operands.
pub fn on_two(alloc: Global, op: Op, left: Expr, right: Expr) -> Result<Expr, AllocError>
    ensures { IfOk result (λ e. e ≡ samples.applied op (left ∷ right ∷ [])) }
{
    let mut operands = Items::new(alloc);
    operands.push(left)?;
    operands.push(right)?;
    Ok(Expr::Apply(op, operands))
}

/// The assignment of a value to a variable.
pub fn sets(alloc: Global, slot: u64, value: Expr) -> Result<Simple, AllocError>
    ensures { IfOk result (λ s. s ≡ samples.sets slot value) }
{
    let mut targets = Items::new(alloc);
    targets.push(Target::Variable(Variable::Slot(slot)))?;
    let mut values = Items::new(alloc);
    values.push(value)?;
    Ok(Simple::Assign(Assignment { targets, values }))
}

pub fn text(alloc: Global, bytes: &[u8]) -> Result<Expr, AllocError>
    ensures { IfOk result (λ e. e ≡ samples.text bytes.now) }
{
    Ok(Expr::Value(Value::Text(Text::of(alloc, bytes)?)))
}

/// The program of these functions, of which `main` has a number, and lists, with one wait group.
pub fn program_with_group(
    alloc: Global,
    main: u64,
    functions: Items<Function>,
    lists: Items<Items<Node>>,
) -> Result<Program, AllocError>
    requires { IsProgram (samples.program_with_group main functions lists) }
    ensures { IfOk result (λ p. p ≡ samples.program_with_group main functions lists) }
{
    let mut globals = Items::new(alloc);
    globals.push(PackageVariable::Group)?;
    let packages = one_package(alloc, functions.len() as u64)?;
    Ok(Program::new(packages, functions, lists, globals, 0, main))
}
