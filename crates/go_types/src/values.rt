//! Values that are given to places, with the types that are wanted there.
ghost use Rattle.std.specs.Prelude.{◌≡◌, Ok, map, replicate, IfOk};
ghost use Rattle.go_meaning.specs.declared.expr.Expr.{out-Expr};
ghost use Rattle.go_types.specs.Checking.{Gives, Checks};
ghost use Rattle.go_types.specs.Expressions.{check as check_is};
ghost use Rattle.go_types.specs.Statements as spec;

use crate::call::zero_value;
use crate::check::{check, check_values, type_of};
use crate::fault::Refusal;
use crate::given::{Filled, Given};
use crate::names::{Marks, Names};
use crate::operand::{Argument, Operand, Part, Term};
use crate::queue::Queue;
use crate::types::{Basic, ValueType};
use go_ast::{Expr as Written, NoMemory, SourceKind, TypeExpr};
use go_meaning::Expr;
use sqlite_items::Items;
use std::alloc::Global;

/// The two types of what a receive gives.
pub fn received(alloc: Global, of: ValueType) -> Result<Items<ValueType>, NoMemory>
    ensures { IfOk result (λ ts. ts ≡ spec.received_types of) }
{
    let mut types = Items::new(alloc);
    types.push(of)?;
    types.push(ValueType::basic(Basic::Bool))?;
    Ok(types)
}

/// A receive gives two values.
fn whole_code(
    alloc: Global,
    at: u32,
    count: usize,
    i: u32,
    of: ValueType,
    code: Expr,
) -> Result<Given, Refusal>
    ensures { Gives (spec.whole_code at count i of (out-Expr code)) result }
{
    match code {
        Expr::Receive(channel) => {
            if count != 2 {
                return Err(Refusal::at(at, SourceKind::WrongCount));
            }
            Ok(Given::Whole {
                at: i,
                types: received(alloc, of)?,
                code: Expr::ReceiveOk(channel),
            })
        }
        _other => Err(Refusal::at(at, SourceKind::WrongCount)),
    }
}

fn whole_term(
    alloc: Global,
    ok: bool,
    at: u32,
    count: usize,
    i: u32,
    term: Term,
) -> Result<Given, Refusal>
    ensures { Gives (spec.whole_term ok at count i term) result }
{
    match term {
        Term::Value(of, code) => {
            if ok {
                whole_code(alloc, at, count, i, of, code)
            } else {
                Err(Refusal::at(at, SourceKind::WrongCount))
            }
        }
        _other => Err(Refusal::at(at, SourceKind::WrongCount)),
    }
}

/// An operand that gives so many values, where `at` is the offset of the statement. A receive gives two if `ok`.
fn whole(alloc: Global, ok: bool, at: u32, count: usize, part: Part) -> Result<Given, Refusal>
    ensures { Gives (spec.whole_operand ok at count part.at part.operand) result }
{
    let Part { at: i, operand } = part;
    match operand {
        Operand::Results(types, code) => {
            if types.len() == count {
                Ok(Given::Whole { at: i, types, code })
            } else {
                Err(Refusal::at(at, SourceKind::WrongCount))
            }
        }
        Operand::Term(term) => whole_term(alloc, ok, at, count, i, term),
        _other => Err(Refusal::at(i, SourceKind::WrongType)),
    }
}

/// Values of which each is for one of so many places.
fn each(
    alloc: Global,
    names: &Names,
    marks: &mut Marks,
    at: u32,
    count: usize,
    es: &[Written],
) -> Result<Given, Refusal>
    ensures { Checks (spec.given_each at count es.now names.now marks.old) result marks.new }
{
    let values = check_values(alloc, names, marks, es)?;
    if values.len() == count {
        Ok(Given::Each(values))
    } else {
        Err(Refusal::at(at, SourceKind::WrongCount))
    }
}

/// The values for so many places of the statement at an offset.
pub fn given(
    alloc: Global,
    names: &Names,
    marks: &mut Marks,
    ok: bool,
    at: u32,
    count: usize,
    es: &[Written],
) -> Result<Given, Refusal>
    ensures { Checks (spec.given ok at count es.now names.now marks.old) result marks.new }
{
    match es {
        [e] if count > 1 => {
            let part = check(alloc, names, marks, e)?;
            whole(alloc, ok, at, count, part)
        }
        es => each(alloc, names, marks, at, count, es),
    }
}

/// The value in the type that is wanted, or where none is in its own.
pub fn wanted_code(wanted: Option<ValueType>, a: Argument) -> Result<Expr, Refusal>
    ensures { Gives (spec.wanted_code wanted a) result }
{
    match wanted {
        Some(to) => a.into_type(to),
        None => match a.term {
            Term::Nil => Err(a.wrong()),
            _ => a.into_own_type(),
        },
    }
}

/// The type that is wanted, or the value's own.
pub fn wanted_type(wanted: Option<ValueType>, a: &Argument) -> ValueType
    ensures { result ≡ spec.wanted_type wanted a.now }
{
    match wanted {
        Some(to) => to,
        None => a.kind().own_type(),
    }
}

fn fill_each(
    alloc: Global,
    wanted: &[Option<ValueType>],
    mut of: Queue<Argument>,
) -> Result<Filled, Refusal>
    ensures { Gives (spec.fill_each wanted.now of) result }
{
    let mut codes = Items::new(alloc);
    let mut types = Items::new(alloc);
    let mut left = wanted;
    while let Some(a) = of.take() {
        let [first, rest @ ..] = left else {
            return Ok(Filled { codes, types });
        };
        let to = wanted_type(*first, &a);
        let code = wanted_code(*first, a)?;
        codes.push(code)?;
        types.push(to)?;
        left = rest;
    }
    Ok(Filled { codes, types })
}

pub fn is_wanted(wanted: Option<ValueType>, of: ValueType) -> bool
    ensures { result ≡ spec.is_wanted wanted of }
{
    match wanted {
        Some(to) => of.same(to),
        None => true,
    }
}

/// A type of what a call or a receive at an offset gives is the one that is wanted.
#[tactic(auto, unfolding(crate::specs::Statements::fit))]
fn fit(at: u32, of: ValueType, wanted: Option<ValueType>) -> Result<(), Refusal>
    ensures { Gives (spec.fit at of wanted) result }
{
    if is_wanted(wanted, of) {
        Ok(())
    } else {
        Err(Refusal::at(at, SourceKind::WrongType))
    }
}

/// Each value of a call or a receive at an offset has the type that is wanted.
fn fit_all(at: u32, wanted: &[Option<ValueType>], types: &[ValueType]) -> Result<(), Refusal>
    ensures { Gives (spec.fit_all at types.now wanted.now) result }
{
    let mut left = wanted;
    for of in types {
        let [want, rest @ ..] = left else {
            return Ok(());
        };
        fit(at, *of, *want)?;
        left = rest;
    }
    Ok(())
}

/// The values with the types that are wanted.
pub fn fill(alloc: Global, wanted: &[Option<ValueType>], of: Given) -> Result<Filled, Refusal>
    ensures { Gives (spec.fill wanted.now of) result }
{
    match of {
        Given::Each(values) => fill_each(alloc, wanted, values),
        Given::Whole { at, types, code } => {
            fit_all(at, wanted, types.as_slice())?;
            let mut codes = Items::new(alloc);
            codes.push(code)?;
            Ok(Filled { codes, types })
        }
    }
}

/// The type that is wanted, or that none is, so many times.
pub fn repeated(
    alloc: Global,
    wanted: Option<ValueType>,
    count: usize,
) -> Result<Items<Option<ValueType>>, NoMemory>
    ensures { IfOk result (λ ws. ws ≡ replicate count wanted) }
{
    let mut all = Items::new(alloc);
    for _ in 0..count {
        all.push(wanted)?;
    }
    Ok(all)
}

/// Zero values of a type.
fn zeros(alloc: Global, count: usize, of: ValueType) -> Result<Filled, NoMemory>
    ensures { IfOk result (λ f. f ≡ spec.zeros count of) }
{
    let mut codes = Items::new(alloc);
    let mut types = Items::new(alloc);
    for _ in 0..count {
        codes.push(Expr::Value(zero_value(alloc, of)?))?;
        types.push(of)?;
    }
    Ok(Filled { codes, types })
}

/// The type that is written, if any.
pub fn type_if(
    names: &Names,
    marks: &mut Marks,
    t: &Option<TypeExpr>,
) -> Result<Option<ValueType>, Refusal>
    ensures { Checks (spec.type_if t.now names.now marks.old) result marks.new }
{
    match t {
        Some(t) => Ok(Some(type_of(names, marks, t)?)),
        None => Ok(None),
    }
}

fn given_values(
    alloc: Global,
    names: &Names,
    marks: &mut Marks,
    at: u32,
    wanted: Option<ValueType>,
    count: usize,
    es: &[Written],
) -> Result<Filled, Refusal>
    ensures { Checks (spec.given_values at wanted count es.now names.now marks.old) result marks.new }
{
    let values = given(alloc, names, marks, true, at, count, es)?;
    let all = repeated(alloc, wanted, count)?;
    fill(alloc, all.as_slice(), values)
}

/// The values with which variables of a declaration begin.
pub fn initial(
    alloc: Global,
    names: &Names,
    marks: &mut Marks,
    at: u32,
    wanted: Option<ValueType>,
    count: usize,
    es: &[Written],
) -> Result<Filled, Refusal>
    ensures { Checks (spec.initial at wanted count es.now names.now marks.old) result marks.new }
{
    match (wanted, es) {
        (Some(of), []) => Ok(zeros(alloc, count, of)?),
        (wanted, es) => given_values(alloc, names, marks, at, wanted, count, es),
    }
}
