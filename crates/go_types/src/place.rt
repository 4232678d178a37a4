//! Indices, bounds and sizes.
ghost use Rattle.std.specs.Prelude.{◌≡◌, ◌∷◌, ◌++◌, Ok};
ghost use Rattle.go_types.specs.Checking.{Gives};
ghost use Rattle.go_types.specs.Operands as spec;

use crate::binary::apply_two;
use crate::fault::Refusal;
use crate::kinds::OperandKind;
use crate::operand::{Argument, Term};
use crate::types::{Basic, ValueType};
use go_ast::SourceKind;
use go_meaning::{Expr, Op};
use sqlite_items::Items;
use std::alloc::Global;

/// The type of an index, a bound or a size.
fn place_type(kind: OperandKind) -> ValueType
    ensures { result ≡ spec.place_type kind }
{
    match kind {
        OperandKind::Typed(of) => of,
        _ => ValueType::basic(Basic::Int),
    }
}

/// An index, a bound or a size.
#[tactic(auto, unfolding(crate::specs::Operands::place))]
pub fn place(a: Argument) -> Result<Expr, Refusal>
    ensures { Gives (spec.place a) result }
{
    let kind = a.kind();
    if !kind.is_integer() {
        return Err(a.wrong());
    }
    if a.term.is_negative_constant() {
        return Err(Refusal::at(a.at, SourceKind::ConstRange));
    }
    a.fitted(place_type(kind))
}

/// The place that is given, if any.
pub fn place_if(alloc: Global, a: Option<Argument>) -> Result<Items<Expr>, Refusal>
    ensures { Gives (spec.place_if a) result }
{
    let mut codes = Items::new(alloc);
    match a {
        Some(a) => {
            let code = place(a)?;
            codes.push(code)?;
            Ok(codes)
        }
        None => Ok(codes),
    }
}

/// A string operand of an expression at an offset.
fn text_at(at: u32, a: Argument) -> Result<Expr, Refusal>
    ensures { Gives (spec.text_at at a) result }
{
    if a.kind().is_text() {
        a.fitted(ValueType::basic(Basic::String))
    } else {
        Err(Refusal::at(at, SourceKind::WrongType))
    }
}

/// A byte of a string.
#[tactic(auto, unfolding(crate::specs::Operands::index))]
pub fn index(alloc: Global, at: u32, s: Argument, i: Argument) -> Result<Term, Refusal>
    ensures { Gives (spec.index at s i) result }
{
    let x = text_at(at, s)?;
    let y = place(i)?;
    let code = apply_two(alloc, Op::Index, x, y)?;
    Ok(Term::Value(ValueType::basic(Basic::Uint8), code))
}

/// A part of a string, with the bounds that are given.
#[tactic(auto, unfolding(crate::specs::Operands::cut))]
pub fn cut(
    alloc: Global,
    at: u32,
    s: Argument,
    low: Option<Argument>,
    high: Option<Argument>,
) -> Result<Term, Refusal>
    ensures { Gives (spec.cut at s low high) result }
{
    let op = Op::Cut {
        low: low.is_some(),
        high: high.is_some(),
    };
    let x = text_at(at, s)?;
    let mut operands = Items::new(alloc);
    operands.push(x)?;
    operands.append(place_if(alloc, low)?)?;
    operands.append(place_if(alloc, high)?)?;
    Ok(Term::Value(ValueType::basic(Basic::String), Expr::Apply(op, operands)))
}
