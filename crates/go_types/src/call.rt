//! Calls and conversions.
ghost use Rattle.std.specs.Prelude.{◌≡◌, [], ◌∷◌, ◌++◌, Ok, Err, IfOk, length};
ghost use Rattle.go_types.specs.Checking.{Gives};
ghost use Rattle.go_types.specs.Operands as spec;

use crate::binary::apply_one;
use crate::constant::{Constant, converted, within};
use crate::conversion::{Conversion, conversion_to};
use crate::fault::Refusal;
use crate::kinds::OperandKind;
use crate::names::{Callee, Signature};
use crate::operand::{Argument, Operand, Part, Term};
use crate::place::place_if;
use crate::queue::Queue;
use crate::types::{Basic, ValueType};
use go_ast::{NoMemory, SourceKind, Text};
use go_meaning::{Expr, Op, Value};
use go_value::Int;
use sqlite_items::{Items, at as item};
use std::alloc::Global;

const INT: ValueType = ValueType {
    channels: 0,
    base: Basic::Int,
};

const STRING: ValueType = ValueType {
    channels: 0,
    base: Basic::String,
};

fn op_of(how: Conversion) -> Op
    ensures { result ≡ spec.op_of how }
{
    match how {
        Conversion::Convert(kind) => Op::Convert(kind),
        Conversion::Spell => Op::Spell,
        Conversion::Keep => Op::Keep,
    }
}

fn converted_term(
    alloc: Global,
    at: u32,
    how: Conversion,
    to: ValueType,
    term: Term,
) -> Result<Term, Refusal>
    ensures { Gives (spec.converted_term at how to term) result }
{
    match term {
        Term::Constant(_, constant) => {
            let constant = converted(alloc, at, how, to, constant)?;
            Ok(Term::Constant(OperandKind::Typed(to), constant))
        }
        Term::Nil => {
            let nil = Expr::Value(Value::Channel(None));
            Ok(Term::Value(to, apply_one(alloc, op_of(how), nil)?))
        }
        Term::Value(_, code) => Ok(Term::Value(to, apply_one(alloc, op_of(how), code)?)),
    }
}

/// A conversion, at its offset, to a type.
#[tactic(auto, unfolding(crate::specs::Operands::convert))]
pub fn convert(alloc: Global, at: u32, to: ValueType, a: Argument) -> Result<Term, Refusal>
    ensures { Gives (spec.convert at to a) result }
{
    let Argument { at: _, term } = a;
    match conversion_to(term.kind(), to) {
        Some(how) => converted_term(alloc, at, how, to, term),
        None => Err(Refusal::at(at, SourceKind::WrongType)),
    }
}

/// A channel.
fn channel(a: Argument) -> Result<Expr, Refusal>
    ensures { Gives (spec.channel a) result }
{
    match a.kind() {
        OperandKind::Typed(of) if of.is_channel() => a.fitted(of),
        _ => Err(a.wrong()),
    }
}

/// A string or a channel.
pub fn measurable(a: Argument) -> Result<Expr, Refusal>
    ensures { Gives (spec.measurable a) result }
{
    if a.kind().is_text() {
        a.fitted(STRING)
    } else {
        channel(a)
    }
}

/// `len`, which is constant for a constant string.
fn len_of(alloc: Global, a: Argument) -> Result<Term, Refusal>
    ensures { Gives (spec.len_of a.at a.term) result }
{
    let Argument { at, term } = a;
    match term {
        Term::Constant(_, Constant::Text(text)) => {
            let len = Constant::Number(text.bytes().len() as i128);
            let kind = OperandKind::Typed(INT);
            Ok(Term::Constant(kind, within(at, kind, len)?))
        }
        term => {
            let x = measurable(Argument { at, term })?;
            Ok(Term::Value(INT, apply_one(alloc, Op::Len, x)?))
        }
    }
}

fn cap_of(alloc: Global, a: Argument) -> Result<Term, Refusal>
    ensures { Gives (spec.cap_of a) result }
{
    let x = channel(a)?;
    Ok(Term::Value(INT, apply_one(alloc, Op::Cap, x)?))
}

fn itoa_of(alloc: Global, a: Argument) -> Result<Term, Refusal>
    ensures { Gives (spec.itoa_of a) result }
{
    let x = a.into_type(INT)?;
    Ok(Term::Value(STRING, apply_one(alloc, Op::Itoa, x)?))
}

/// A value of type bool, integer or string.
fn printable(a: Argument) -> Result<Expr, Refusal>
    ensures { Gives (spec.printable a) result }
{
    let kind = a.kind();
    if kind.is_integer() || kind.is_text() || kind.is_flag() {
        a.into_own_type()
    } else {
        Err(a.wrong())
    }
}

fn printables(alloc: Global, mut of: Queue<Argument>) -> Result<Items<Expr>, Refusal>
    ensures { Gives (spec.printables of) result }
{
    let mut codes = Items::new(alloc);
    while let Some(a) = of.take() {
        let code = printable(a)?;
        codes.push(code)?;
    }
    Ok(codes)
}

/// The values of parameters of these types.
fn passed(
    alloc: Global,
    types: &[ValueType],
    mut of: Queue<Argument>,
) -> Result<Items<Expr>, Refusal>
    ensures { Gives (spec.passed types.now of) result }
{
    let mut codes = Items::new(alloc);
    let mut left = types;
    while let Some(a) = of.take() {
        let [to, rest @ ..] = left else {
            return Ok(codes);
        };
        let code = a.into_type(*to)?;
        codes.push(code)?;
        left = rest;
    }
    Ok(codes)
}

/// The only argument of a call of what stands at an offset.
fn only(at: u32, mut of: Queue<Argument>) -> Result<Argument, Refusal>
    ensures { Gives (spec.only at of) result }
{
    match of.take() {
        Some(a) if of.len() == 0 => Ok(a),
        _ => Err(Refusal::at(at, SourceKind::WrongCount)),
    }
}

/// A call that gives nothing.
fn nothing(alloc: Global, code: Expr) -> Operand
    ensures { result ≡ spec.nothing code }
{
    Operand::Results(Items::new(alloc), code)
}

/// A call without arguments that gives nothing.
fn no_arguments(alloc: Global, at: u32, of: Queue<Argument>, op: Op) -> Result<Operand, Refusal>
    ensures { Gives (spec.no_arguments at of (Expr.Apply op [])) result }
{
    if of.len() == 0 {
        Ok(nothing(alloc, Expr::Apply(op, Items::new(alloc))))
    } else {
        Err(Refusal::at(at, SourceKind::WrongCount))
    }
}

/// An operation on one operand that gives nothing.
fn does(alloc: Global, op: Op, x: Expr) -> Result<Operand, NoMemory>
    ensures { IfOk result (λ o. spec.does op (Ok x) ≡ Ok o) }
{
    Ok(nothing(alloc, apply_one(alloc, op, x)?))
}

/// What a call with these results gives.
fn results(results: Items<ValueType>, code: Expr) -> Operand
    ensures { result ≡ spec.results results code }
{
    match results.as_slice() {
        [of] => Operand::Term(Term::Value(*of, code)),
        _ => Operand::Results(results, code),
    }
}

/// A call of the function with a number, by its types.
fn called(
    alloc: Global,
    at: u32,
    function: u64,
    params: &[ValueType],
    gives: &[ValueType],
    of: Queue<Argument>,
) -> Result<Operand, Refusal>
    ensures { Gives (spec.called at function (record { params = params.now; results = gives.now }) of) result }
{
    if of.len() != params.len() {
        return Err(Refusal::at(at, SourceKind::WrongCount));
    }
    let codes = passed(alloc, params, of)?;
    let given = Items::from_slice(alloc, gives)?;
    Ok(results(given, Expr::Call(function, codes)))
}

/// A call of the function with a number.
fn call_function(
    alloc: Global,
    signatures: &[Signature],
    at: u32,
    function: u64,
    of: Queue<Argument>,
) -> Result<Operand, Refusal>
    ensures { Gives (spec.call signatures.now at (Callee.Function function) of) result }
{
    match item(signatures, function as usize) {
        Some(s) => called(
            alloc,
            at,
            function,
            s.params.as_slice(),
            s.results.as_slice(),
            of,
        ),
        None => called(alloc, at, function, &[], &[], of),
    }
}

/// A call of `panic`, `close`, `os.Exit` or `Add`.
fn call_effect(
    alloc: Global,
    at: u32,
    callee: Callee,
    of: Queue<Argument>,
) -> Result<Operand, Refusal>
    ensures { Gives (spec.call_effect at callee of) result }
{
    match callee {
        Callee::Close => Ok(does(alloc, Op::Close, channel(only(at, of)?)?)?),
        Callee::Panic => Ok(does(alloc, Op::Panic, printable(only(at, of)?)?)?),
        Callee::Exit => Ok(does(alloc, Op::Exit, only(at, of)?.into_type(INT)?)?),
        Callee::Add(g) => Ok(does(alloc, Op::Add(g), only(at, of)?.into_type(INT)?)?),
        _ => Err(Refusal::at(at, SourceKind::WrongType)),
    }
}

/// A call of what stands at an offset.
pub fn call(
    alloc: Global,
    signatures: &[Signature],
    at: u32,
    callee: Callee,
    of: Queue<Argument>,
) -> Result<Operand, Refusal>
    ensures { Gives (spec.call signatures.now at callee of) result }
{
    match callee {
        Callee::Function(f) => call_function(alloc, signatures, at, f, of),
        Callee::Len => Ok(Operand::Term(len_of(alloc, only(at, of)?)?)),
        Callee::Cap => Ok(Operand::Term(cap_of(alloc, only(at, of)?)?)),
        Callee::Itoa => Ok(Operand::Term(itoa_of(alloc, only(at, of)?)?)),
        Callee::Make => Err(Refusal::at(at, SourceKind::WrongType)),
        Callee::Println => print(alloc, of),
        Callee::Lock(m) => no_arguments(alloc, at, of, Op::Lock(m)),
        Callee::Unlock(m) => no_arguments(alloc, at, of, Op::Unlock(m)),
        Callee::Done(g) => no_arguments(alloc, at, of, Op::Done(g)),
        Callee::Wait(g) => no_arguments(alloc, at, of, Op::Wait(g)),
        other => call_effect(alloc, at, other, of),
    }
}

/// A call of `fmt.Println`.
fn print(alloc: Global, of: Queue<Argument>) -> Result<Operand, Refusal>
    ensures { Gives (spec.print of) result }
{
    let count = of.len() as u64;
    let codes = printables(alloc, of)?;
    Ok(nothing(alloc, Expr::Apply(Op::Println(count), codes)))
}

/// The conversion of the arguments to a type: first come the offset of the conversion and that of the type.
pub fn call_type(
    alloc: Global,
    at: u32,
    callee: u32,
    to: ValueType,
    of: Queue<Argument>,
) -> Result<Operand, Refusal>
    ensures { Gives (spec.call_type at callee to of) result }
{
    let a = only(callee, of)?;
    Ok(Operand::Term(convert(alloc, at, to, a)?))
}

/// `make`, with a size or without.
#[tactic(auto, unfolding(crate::specs::Operands::made))]
fn made(alloc: Global, part: Part, size: Option<Argument>) -> Result<Term, Refusal>
    ensures { Gives (spec.made part size) result }
{
    let sized = size.is_some();
    let Part { at, operand } = part;
    let Some(of) = made_type(operand) else {
        return Err(Refusal::at(at, SourceKind::WrongType));
    };
    let codes = place_if(alloc, size)?;
    let zero = zero_value(alloc, of.element())?;
    Ok(Term::Value(of, Expr::Apply(Op::Make { zero, sized }, codes)))
}

/// `make` of the operands, of which the first is a type. First comes the offset of `make`.
pub fn make(alloc: Global, at: u32, mut parts: Queue<Part>) -> Result<Term, Refusal>
    ensures { Gives (spec.make at parts) result }
{
    let Some(part) = parts.take() else {
        return Err(Refusal::at(at, SourceKind::WrongCount));
    };
    match parts.take() {
        None => made(alloc, part, None),
        Some(size) if parts.len() == 0 => made(alloc, part, Some(size.into_value()?)),
        Some(_) => Err(Refusal::at(at, SourceKind::WrongCount)),
    }
}

fn made_type(operand: Operand) -> Option<ValueType>
    ensures { result ≡ spec.made_type operand }
{
    match operand {
        Operand::Type(of) if of.is_channel() => Some(of),
        _ => None,
    }
}

/// The value that a variable of a type begins with.
#[tactic(auto, unfolding(crate::specs::Operands::zero_value))]
pub fn zero_value(alloc: Global, of: ValueType) -> Result<Value, NoMemory>
    ensures { IfOk result (λ v. v ≡ spec.zero_value of) }
{
    if of.is_channel() {
        return Ok(Value::Channel(None));
    }
    if of.is_text() {
        return Ok(Value::Text(Text::of(alloc, b"")?));
    }
    match of.int_kind() {
        Some(kind) => Ok(Value::Number(Int::wrapped(kind, 0))),
        None => Ok(Value::Flag(false)),
    }
}
