//! Simple statements, `go`, `defer` and `return`.
ghost use Rattle.std.specs.Prelude.{◌≡◌, Ok, Some, map, slice_get, IfOk};
ghost use Rattle.go_meaning.specs.declared.expr.Expr.{out-Expr};
ghost use Rattle.go_ast.specs.declared.expr.ExprForm.{out-ExprForm};
ghost use Rattle.go_types.specs.Checking.{Gives, Checks};
ghost use Rattle.go_types.specs.Walking.{Walks};
ghost use Rattle.go_types.specs.Scopes as scopes;
ghost use Rattle.go_types.specs.Statements as spec;

use crate::binary::binary;
use crate::check::{check, check_value};
use crate::constant::Constant;
use crate::fault::Refusal;
use crate::given::Typed;
use crate::kinds::{OperandKind, Untyped};
use crate::names::{Marks, Names};
use crate::operand::{Argument, Operand, Part, Term};
use crate::operator::{Operator, operator_of};
use crate::target::{any_new, old_targets};
use crate::types::ValueType;
use crate::values::{fill, given};
use crate::walk::{Place, Walk};
use go_ast::{
    BinaryOp, Expr as Written, ExprForm, Name, NoMemory, SourceKind, Target as WrittenTarget,
};
use go_meaning::{Assignment, Deferral, Expr, NodeForm, Op, Simple, Variable};
use sqlite_items::Items;
use std::alloc::Global;

impl Place {
    /// The type that a place asks for. `_` and a new name ask for none.
    pub fn wanted(self) -> Option<ValueType>
        ensures { result ≡ spec.wanted_by self }
    {
        match self {
            Place::Variable(_, of) => Some(of),
            _ => None,
        }
    }
}

fn wanted_types(alloc: Global, places: &[Place]) -> Result<Items<Option<ValueType>>, NoMemory>
    ensures { IfOk result (λ ws. ws ≡ map spec.wanted_by places.now) }
{
    let mut wanted = Items::new(alloc);
    for place in places {
        wanted.push(place.wanted())?;
    }
    Ok(wanted)
}

/// An assignment at an offset.
#[tactic(auto, unfolding(crate::specs::Statements::assign))]
pub fn assign(
    alloc: Global,
    walk: &mut Walk,
    at: u32,
    targets: &[WrittenTarget],
    es: &[Written],
) -> Result<Simple, Refusal>
    ensures { Walks (spec.assign at targets.now es.now walk.old) result walk.new }
{
    let places = walk.places_of(alloc, targets)?;
    let values = given(
        alloc,
        &walk.names,
        &mut walk.marks,
        true,
        at,
        places.len(),
        es,
    )?;
    let wanted = wanted_types(alloc, places.as_slice())?;
    let filled = fill(alloc, wanted.as_slice(), values)?;
    Ok(Simple::Assign(Assignment {
        targets: old_targets(alloc, places.as_slice())?,
        values: filled.codes,
    }))
}

/// `:=` at an offset.
#[tactic(auto, unfolding(crate::specs::Statements::define))]
pub fn define(
    alloc: Global,
    walk: &mut Walk,
    at: u32,
    names: &[Name],
    es: &[Written],
) -> Result<Simple, Refusal>
    ensures { Walks (spec.define at names.now es.now walk.old) result walk.new }
{
    let places = walk.defined_places(alloc, names)?;
    let values = given(
        alloc,
        &walk.names,
        &mut walk.marks,
        true,
        at,
        places.len(),
        es,
    )?;
    if !any_new(places.as_slice()) {
        return Err(Refusal::at(at, SourceKind::Redeclared));
    }
    let wanted = wanted_types(alloc, places.as_slice())?;
    let filled = fill(alloc, wanted.as_slice(), values)?;
    let targets = walk.targets_defined(alloc, names, places.as_slice(), filled.types.as_slice())?;
    Ok(Simple::Assign(Assignment {
        targets,
        values: filled.codes,
    }))
}

fn is_name_panic(form: &ExprForm) -> bool
    ensures { result ≡ spec.is_name_panic (out-ExprForm form.now) }
{
    match form {
        ExprForm::Plain(name) => name.text.bytes() == b"panic".as_slice(),
        _ => false,
    }
}

/// Whether an expression is written as a call of the name `panic` with one argument.
fn is_panic(form: &ExprForm) -> bool
    ensures { result ≡ spec.is_panic (out-ExprForm form.now) }
{
    match form {
        ExprForm::Call(callee, arguments) => {
            is_name_panic(&callee.get().form) && arguments.len() == 1
        }
        _ => false,
    }
}

/// A call of a function, or a receive.
fn is_done_alone(code: &Expr) -> bool
    ensures { result ≡ spec.is_done_alone (out-Expr code.now) }
{
    matches!(code, Expr::Call(_, _) | Expr::Receive(_))
}

fn eval_term(at: u32, panics: bool, term: Term) -> Result<Simple, Refusal>
    ensures { Gives (spec.eval_term at panics term) result }
{
    match term {
        Term::Value(_of, value) => {
            if is_done_alone(&value) {
                Ok(Simple::Eval {
                    value,
                    results: 1,
                    panics,
                })
            } else {
                Err(Refusal::at(at, SourceKind::BadCall))
            }
        }
        _other => Err(Refusal::at(at, SourceKind::BadCall)),
    }
}

fn eval_operand(at: u32, panics: bool, i: u32, operand: Operand) -> Result<Simple, Refusal>
    ensures { Gives (spec.eval_operand at panics i operand) result }
{
    match operand {
        Operand::Results(types, value) => Ok(Simple::Eval {
            value,
            results: types.len() as u64,
            panics,
        }),
        Operand::Term(term) => eval_term(at, panics, term),
        _other => Err(Refusal::at(i, SourceKind::WrongType)),
    }
}

/// An expression statement at an offset.
#[tactic(auto, unfolding(crate::specs::Statements::eval))]
pub fn eval(alloc: Global, walk: &mut Walk, at: u32, e: &Written) -> Result<Simple, Refusal>
    ensures { Walks (spec.eval at e.now walk.old) result walk.new }
{
    let part = check(alloc, &walk.names, &mut walk.marks, e)?;
    let Part { at: i, operand } = part;
    eval_operand(at, is_panic(&e.form), i, operand)
}

fn code_of_term(at: u32, term: Term) -> Result<Expr, Refusal>
    ensures { Gives (spec.code_of_term at term) result }
{
    match term {
        Term::Value(_of, code) => Ok(code),
        _other => Err(Refusal::at(at, SourceKind::BadCall)),
    }
}

/// What an operand that is a call computes.
fn code_of(at: u32, i: u32, operand: Operand) -> Result<Expr, Refusal>
    ensures { Gives (spec.code_of at i operand) result }
{
    match operand {
        Operand::Results(_types, code) => Ok(code),
        Operand::Term(term) => code_of_term(at, term),
        _other => Err(Refusal::at(i, SourceKind::WrongType)),
    }
}

fn is_call(form: &ExprForm) -> bool
    ensures { result ≡ spec.is_call (out-ExprForm form.now) }
{
    matches!(form, ExprForm::Call(_, _))
}

/// The call of a `go` or `defer` at an offset.
#[tactic(auto, unfolding(crate::specs::Statements::called))]
pub fn called(alloc: Global, walk: &mut Walk, at: u32, e: &Written) -> Result<Expr, Refusal>
    ensures { Walks (spec.called at e.now walk.old) result walk.new }
{
    let part = check(alloc, &walk.names, &mut walk.marks, e)?;
    let Part { at: i, operand } = part;
    let code = code_of(at, i, operand)?;
    if is_call(&e.form) {
        Ok(code)
    } else {
        Err(Refusal::at(at, SourceKind::BadCall))
    }
}

/// `go` at an offset.
pub fn spawned(at: u32, code: Expr) -> Result<NodeForm, Refusal>
    ensures { Gives (spec.spawned at (out-Expr code)) result }
{
    match code {
        Expr::Call(function, codes) => Ok(NodeForm::Go(function, codes)),
        _other => Err(Refusal::at(at, SourceKind::BadCall)),
    }
}

/// `defer` at an offset.
pub fn deferred(at: u32, code: Expr) -> Result<NodeForm, Refusal>
    ensures { Gives (spec.deferred at (out-Expr code)) result }
{
    match code {
        Expr::Call(function, codes) => Ok(NodeForm::Defer(Deferral::Call(function), codes)),
        Expr::Apply(Op::Done(group), codes) => Ok(NodeForm::Defer(Deferral::Done(group), codes)),
        Expr::Apply(Op::Unlock(mutex), codes) => {
            Ok(NodeForm::Defer(Deferral::Unlock(mutex), codes))
        }
        Expr::Apply(Op::Close, codes) => Ok(NodeForm::Defer(Deferral::Close, codes)),
        Expr::Apply(Op::Println(count), codes) => {
            Ok(NodeForm::Defer(Deferral::Println(count), codes))
        }
        _other => Err(Refusal::at(at, SourceKind::BadCall)),
    }
}

/// A channel, and the type of its values.
pub fn channel_typed(a: Argument) -> Result<Typed, Refusal>
    ensures { Gives (spec.channel_typed a) result }
{
    match a.kind() {
        OperandKind::Typed(of) if of.is_channel() => {
            let code = a.fitted(of)?;
            Ok(Typed {
                of: of.element(),
                code,
            })
        }
        _ => Err(a.wrong()),
    }
}

fn sent(channel: Argument, a: Argument) -> Result<(Expr, Expr), Refusal>
    ensures { Gives (spec.sent channel a) result }
{
    let Typed { of, code } = channel_typed(channel)?;
    let value = a.into_type(of)?;
    Ok((code, value))
}

/// A channel, and a value that is sent over it.
pub fn send_values(
    alloc: Global,
    names: &Names,
    marks: &mut Marks,
    channel: &Written,
    e: &Written,
) -> Result<(Expr, Expr), Refusal>
    ensures { Checks (spec.send_values channel.now e.now names.now marks.old) result marks.new }
{
    let channel = check_value(alloc, names, marks, channel)?;
    let a = check_value(alloc, names, marks, e)?;
    sent(channel, a)
}

/// A send.
#[tactic(auto, unfolding(crate::specs::Statements::send))]
pub fn send(
    alloc: Global,
    walk: &mut Walk,
    channel: &Written,
    e: &Written,
) -> Result<Simple, Refusal>
    ensures { Walks (spec.send channel.now e.now walk.old) result walk.new }
{
    let (code, value) = send_values(alloc, &walk.names, &mut walk.marks, channel, e)?;
    Ok(Simple::Send(code, value))
}

/// The operation on a variable and a second operand, as an assignment.
fn update_code(at: u32, variable: Variable, code: Expr) -> Result<Simple, Refusal>
    ensures { Gives (spec.update_code at variable (out-Expr code)) result }
{
    match code {
        Expr::Apply(op, mut operands) => {
            if operands.get(1).is_none() {
                return Err(Refusal::at(at, SourceKind::WrongType));
            }
            let second = operands.remove(1);
            Ok(Simple::Update(variable, op, second))
        }
        _other => Err(Refusal::at(at, SourceKind::WrongType)),
    }
}

/// What an operator does with a variable and its second operand, as an assignment.
fn update_term(at: u32, variable: Variable, term: Term) -> Result<Simple, Refusal>
    ensures { Gives (spec.update_term at variable term) result }
{
    match term {
        Term::Value(_of, code) => update_code(at, variable, code),
        _other => Err(Refusal::at(at, SourceKind::WrongType)),
    }
}

fn updated(
    alloc: Global,
    at: u32,
    op: Operator,
    place: Place,
    a: Argument,
) -> Result<Simple, Refusal>
    ensures { Gives (spec.updated at op place a) result }
{
    match place {
        Place::Variable(variable, of) => {
            let term = Term::Value(of, Expr::Variable(variable));
            let term = binary(alloc, at, op, Argument { at, term }, a)?;
            update_term(at, variable, term)
        }
        _ => Err(Refusal::at(at, SourceKind::WrongType)),
    }
}

/// The variable that is read and assigned.
fn read_place(walk: &mut Walk, target: &WrittenTarget) -> Result<Place, Refusal>
    ensures { Walks (spec.read_place target.now walk.old) result walk.new }
{
    match target {
        WrittenTarget::Plain(name) => walk.place_named(name),
        WrittenTarget::Member(_, _) => walk.place_of(target),
    }
}

/// An assignment with an operator at an offset.
#[tactic(auto, unfolding(crate::specs::Statements::update))]
pub fn update(
    alloc: Global,
    walk: &mut Walk,
    at: u32,
    target: &WrittenTarget,
    op: BinaryOp,
    e: &Written,
) -> Result<Simple, Refusal>
    ensures { Walks (spec.update at target.now op e.now walk.old) result walk.new }
{
    let place = read_place(walk, target)?;
    walk.read_at(place);
    let a = check_value(alloc, &walk.names, &mut walk.marks, e)?;
    updated(alloc, at, operator_of(op), place, a)
}

/// `++` or `--` at an offset.
#[tactic(auto, unfolding(crate::specs::Statements::step))]
pub fn step(
    alloc: Global,
    walk: &mut Walk,
    at: u32,
    target: &WrittenTarget,
    op: Operator,
) -> Result<Simple, Refusal>
    ensures { Walks (spec.step at target.now op walk.old) result walk.new }
{
    let place = read_place(walk, target)?;
    walk.read_at(place);
    let term = Term::Constant(OperandKind::Untyped(Untyped::Int), Constant::Number(1));
    updated(alloc, at, op, place, Argument { at, term })
}

/// The types, each of which is wanted.
fn all_wanted(alloc: Global, types: &[ValueType]) -> Result<Items<Option<ValueType>>, NoMemory>
    ensures { IfOk result (λ ws. ws ≡ map (λ t. Some t) types.now) }
{
    let mut wanted = Items::new(alloc);
    for of in types {
        wanted.push(Some(*of))?;
    }
    Ok(wanted)
}

/// `return` at an offset.
#[tactic(auto, unfolding(crate::specs::Statements::return_of))]
pub fn return_(alloc: Global, walk: &mut Walk, at: u32, es: &[Written]) -> Result<NodeForm, Refusal>
    ensures { Walks (spec.return_of at es.now walk.old) result walk.new }
{
    let count = walk.results.len();
    let values = given(alloc, &walk.names, &mut walk.marks, false, at, count, es)?;
    let wanted = all_wanted(alloc, walk.results.as_slice())?;
    let filled = fill(alloc, wanted.as_slice(), values)?;
    Ok(NodeForm::Return(filled.codes, count as u64))
}
