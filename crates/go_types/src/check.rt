//! What expressions and types are.
ghost use Rattle.std.specs.Prelude.{◌≡◌, true, Ok};
ghost use Rattle.go_ast.specs.declared.expr.Expr.{Expr};
ghost use Rattle.go_ast.specs.declared.expr.TypeExpr.{TypeExpr};
ghost use Rattle.go_ast.specs.declared.expr.ExprForm.{out-ExprForm};
ghost use Rattle.go_ast.specs.declared.expr.TypeForm.{out-TypeForm};
ghost use Rattle.go_types.specs.declared.operand.Operand.TheVariants as operand;
ghost use Rattle.go_types.specs.Checking.{Gives, Checks, pure};
ghost use Rattle.go_types.specs.Expressions as spec;

use crate::binary::{binary, unary};
use crate::call::{call, call_type, make};
use crate::constant::Constant;
use crate::fault::Refusal;
use crate::kinds::{OperandKind, Untyped};
use crate::literal::int_literal;
use crate::names::{Callee, Marks, Meaning, Names};
use crate::operand::{Argument, Operand, Part, Term};
use crate::operator::operator_of;
use crate::place::{cut, index};
use crate::queue::Queue;
use crate::term::valued;
use crate::types::ValueType;
use go_ast::{Expr, ExprForm, Name, SourceKind, TypeExpr, TypeForm};
use sqlite_items::Boxed;
use std::alloc::Global;

/// The type that a meaning is.
fn type_meant(at: u32, meaning: Meaning) -> Result<ValueType, Refusal>
    ensures { Gives (spec.type_meant at meaning) result }
{
    match meaning {
        Meaning::Type(of) => Ok(of),
        _ => Err(Refusal::at(at, SourceKind::WrongType)),
    }
}

/// The type of channels of a type. There is no memory for a type of more than 2^32 - 1 words.
fn channel_of(of: ValueType) -> Result<ValueType, Refusal>
    ensures { Gives (Ok (spec.channel_of of)) result }
{
    match of.channels.checked_add(1) {
        Some(channels) => Ok(ValueType {
            channels,
            base: of.base,
        }),
        None => Err(Refusal::NoMemory),
    }
}

/// The type that is written.
#[cycle(types)]
#[tactic(auto, using(crate::proofs::Layers::type_of_is))]
pub fn type_of(names: &Names, marks: &mut Marks, t: &TypeExpr) -> Result<ValueType, Refusal>
    ensures { Checks (spec.type_of t.now names.now marks.old) result marks.new }
{
    type_form(names, marks, &t.form)
}

#[cycle(types)]
fn type_form(names: &Names, marks: &mut Marks, form: &TypeForm) -> Result<ValueType, Refusal>
    ensures { Checks (spec.type_layer TypeExpr spec.type_of (out-TypeForm form.now) names.now marks.old) result marks.new }
{
    match form {
        TypeForm::Plain(name) => type_meant(name.at, names.meaning_of(name)?),
        TypeForm::Member(first, name) => {
            let meaning = names.member(marks, first, name)?;
            type_meant(first.at, meaning)
        }
        TypeForm::Chan(t) => {
            let of = type_of(names, marks, t.get())?;
            channel_of(of)
        }
    }
}

/// A constant as a part at an offset.
fn fixed(at: u32, kind: Untyped, constant: Constant) -> Part
    ensures { result ≡ spec.fixed at kind constant }
{
    Part {
        at,
        operand: Operand::Term(Term::Constant(OperandKind::Untyped(kind), constant)),
    }
}

/// What a name is.
fn plain(names: &Names, marks: &mut Marks, name: &Name) -> Result<Operand, Refusal>
    ensures { Checks (spec.named name.now names.now marks.old) result marks.new }
{
    let meaning = names.meaning_of(name)?;
    marks.noted(meaning)
}

/// What a name in a package is, or a method.
fn member(names: &Names, marks: &mut Marks, first: &Name, name: &Name) -> Result<Operand, Refusal>
    ensures { Checks (spec.member_named first.now name.now names.now marks.old) result marks.new }
{
    let meaning = names.member(marks, first, name)?;
    marks.noted(meaning)
}

/// An expression that has no operands.
fn check_leaf(names: &Names, marks: &mut Marks, at: u32, form: &ExprForm) -> Result<Part, Refusal>
    ensures { Checks (spec.leaf (out-ExprForm form.now) at names.now marks.old) result marks.new }
{
    match form {
        ExprForm::Int(bytes) => Ok(fixed(at, Untyped::Int, int_literal(at, bytes.bytes())?)),
        ExprForm::Rune(code) => {
            let number = Constant::Number(i128::from(*code));
            Ok(fixed(at, Untyped::Rune, number))
        }
        ExprForm::Text(text) => Ok(fixed(at, Untyped::String, Constant::Text(text.clone()?))),
        ExprForm::Plain(name) => {
            let operand = plain(names, marks, name)?;
            Ok(Part { at, operand })
        }
        ExprForm::Member(first, name) => {
            let operand = member(names, marks, first, name)?;
            Ok(Part { at, operand })
        }
        ExprForm::Chan(t) => {
            let of = type_of(names, marks, t)?;
            let operand = Operand::Type(channel_of(of)?);
            Ok(Part { at, operand })
        }
        _ => Err(Refusal::at(at, SourceKind::WrongType)),
    }
}

/// A term as a part at an offset.
fn term_part(at: u32, term: Term) -> Part
    ensures { result ≡ spec.part at (operand.Term term) }
{
    Part {
        at,
        operand: Operand::Term(term),
    }
}

/// A part that may be other than a value, or not.
fn allowed(may: bool, part: Part) -> Result<Part, Refusal>
    ensures { Gives (spec.allowed may part) result }
{
    if may { Ok(part) } else { part.demanded() }
}

/// What an expression is.
#[cycle(check)]
#[tactic(auto, using(crate::proofs::Layers::check_is))]
pub fn check(alloc: Global, names: &Names, marks: &mut Marks, e: &Expr) -> Result<Part, Refusal>
    ensures { Checks (spec.check e.now names.now marks.old) result marks.new }
{
    check_form(alloc, names, marks, e.span.start, &e.form)
}

#[cycle(check)]
fn check_form(
    alloc: Global,
    names: &Names,
    marks: &mut Marks,
    at: u32,
    form: &ExprForm,
) -> Result<Part, Refusal>
    ensures { Checks (spec.layer Expr spec.check (out-ExprForm form.now) at names.now marks.old) result marks.new }
{
    match form {
        ExprForm::Binary(op, a, b) => {
            let x = check_value(alloc, names, marks, a.get())?;
            let y = check_value(alloc, names, marks, b.get())?;
            Ok(term_part(at, binary(alloc, at, operator_of(*op), x, y)?))
        }
        ExprForm::Unary(op, a) => {
            let x = check_value(alloc, names, marks, a.get())?;
            Ok(term_part(at, unary(alloc, at, *op, x)?))
        }
        ExprForm::Call(f, es) => {
            let part = check(alloc, names, marks, f.get())?;
            check_call(alloc, names, marks, at, part, es.as_slice())
        }
        ExprForm::Index(s, i) => {
            let x = check_value(alloc, names, marks, s.get())?;
            let y = check_value(alloc, names, marks, i.get())?;
            Ok(term_part(at, index(alloc, at, x, y)?))
        }
        ExprForm::Cut(s, low, high) => {
            let x = check_value(alloc, names, marks, s.get())?;
            let i = check_bound(alloc, names, marks, low)?;
            let j = check_bound(alloc, names, marks, high)?;
            Ok(term_part(at, cut(alloc, at, x, i, j)?))
        }
        ExprForm::Paren(e) => check(alloc, names, marks, e.get()),
        ExprForm::Int(_)
        | ExprForm::Rune(_)
        | ExprForm::Text(_)
        | ExprForm::Plain(_)
        | ExprForm::Member(_, _)
        | ExprForm::Chan(_) => check_leaf(names, marks, at, form),
    }
}

/// A bound that may be left out.
#[cycle(check)]
fn check_bound(
    alloc: Global,
    names: &Names,
    marks: &mut Marks,
    e: &Option<Boxed<Expr>>,
) -> Result<Option<Argument>, Refusal>
    ensures { Checks (spec.bound_of Expr spec.check e.now names.now marks.old) result marks.new }
{
    match e {
        Some(e) => Ok(Some(check_value(alloc, names, marks, e.get())?)),
        None => Ok(None),
    }
}

/// A value.
#[cycle(check)]
pub fn check_value(
    alloc: Global,
    names: &Names,
    marks: &mut Marks,
    e: &Expr,
) -> Result<Argument, Refusal>
    ensures { Checks (spec.value_of Expr spec.check e.now names.now marks.old) result marks.new }
{
    check(alloc, names, marks, e)?.into_value()
}

/// Values, from left to right.
#[cycle(check)]
pub fn check_values(
    alloc: Global,
    names: &Names,
    marks: &mut Marks,
    es: &[Expr],
) -> Result<Queue<Argument>, Refusal>
    ensures { Checks (spec.values_of Expr spec.check es.now names.now marks.old) result marks.new }
{
    let mut values = Vec::new(alloc);
    for e in es {
        let a = check_value(alloc, names, marks, e)?;
        values.push(a)?;
    }
    Ok(Queue::of(values))
}

/// A call at an offset, of a part that was checked.
#[cycle(check)]
fn check_call(
    alloc: Global,
    names: &Names,
    marks: &mut Marks,
    at: u32,
    part: Part,
    es: &[Expr],
) -> Result<Part, Refusal>
    ensures { Checks (spec.call_of Expr spec.check at part.at part.operand es.now names.now marks.old) result marks.new }
{
    let Part {
        at: callee,
        operand,
    } = part;
    match operand {
        Operand::Type(to) => {
            let values = check_values(alloc, names, marks, es)?;
            let operand = call_type(alloc, at, callee, to, values)?;
            Ok(Part { at, operand })
        }
        Operand::Callee(Callee::Make) => {
            let parts = check_parts(alloc, names, marks, es)?;
            Ok(term_part(at, make(alloc, callee, parts)?))
        }
        Operand::Callee(what) => {
            let values = check_values(alloc, names, marks, es)?;
            let operand = call(alloc, names.signatures.as_slice(), callee, what, values)?;
            Ok(Part { at, operand })
        }
        operand => {
            let _value = valued(callee, operand)?;
            let _values = check_values(alloc, names, marks, es)?;
            Err(Refusal::at(callee, SourceKind::WrongType))
        }
    }
}

/// An operand of `make`, which may be other than a value, or not.
#[cycle(check)]
fn check_part(
    alloc: Global,
    names: &Names,
    marks: &mut Marks,
    may: bool,
    e: &Expr,
) -> Result<Part, Refusal>
    ensures { Checks (spec.part_of Expr spec.check may e.now names.now marks.old) result marks.new }
{
    allowed(may, check(alloc, names, marks, e)?)
}

/// The operands of `make`, of which the first may be a type.
#[cycle(check)]
fn check_parts(
    alloc: Global,
    names: &Names,
    marks: &mut Marks,
    es: &[Expr],
) -> Result<Queue<Part>, Refusal>
    ensures { Checks (spec.parts_of Expr spec.check true es.now names.now marks.old) result marks.new }
{
    let mut parts = Vec::new(alloc);
    let mut may = true;
    for e in es {
        let part = check_part(alloc, names, marks, may, e)?;
        parts.push(part)?;
        may = false;
    }
    Ok(Queue::of(parts))
}
