//! Operators on terms.
ghost use Rattle.std.specs.Prelude.{◌≡◌, [], ◌∷◌, IfOk};
ghost use Rattle.go_types.specs.Checking.{Gives};
ghost use Rattle.go_types.specs.Operands as spec;

use crate::constant::{Constant, binary_constant, unary_constant, within};
use crate::fault::Refusal;
use crate::kinds::OperandKind;
use crate::operand::{Argument, Term};
use crate::operator::{Operator, is_for, result_kind, shift_kind, unary_kind};
use crate::types::ValueType;
use go_ast::{NoMemory, SourceKind, UnaryOp};
use go_meaning::{Expr, Op};
use go_value::IntOp;
use sqlite_items::{Boxed, Items};
use std::alloc::Global;

impl Operator {
    fn divides(self) -> bool
        ensures { result ≡ spec.divides self }
    {
        match self {
            Operator::Arithmetic(op) => op.is_division(),
            _ => false,
        }
    }

    fn shifts(self) -> bool
        ensures { result ≡ spec.shifts self }
    {
        match self {
            Operator::Arithmetic(op) => op.is_shift(),
            _ => false,
        }
    }
}

/// An operation on one operand.
pub fn apply_one(alloc: Global, op: Op, x: Expr) -> Result<Expr, NoMemory>
    ensures { IfOk result (λ e. e ≡ Expr.Apply op (x ∷ [])) }
{
    let mut operands = Items::new(alloc);
    operands.push(x)?;
    Ok(Expr::Apply(op, operands))
}

/// An operation on two operands.
pub fn apply_two(alloc: Global, op: Op, x: Expr, y: Expr) -> Result<Expr, NoMemory>
    ensures { IfOk result (λ e. e ≡ Expr.Apply op (x ∷ y ∷ [])) }
{
    let mut operands = Items::new(alloc);
    operands.push(x)?;
    operands.push(y)?;
    Ok(Expr::Apply(op, operands))
}

/// What an operator does with operands of a type.
fn operation(alloc: Global, op: Operator, of: ValueType, x: Expr, y: Expr) -> Result<Expr, NoMemory>
    ensures { IfOk result (λ e. e ≡ spec.operation op of x y) }
{
    match op {
        Operator::Arithmetic(IntOp::Add) if of.is_text() => apply_two(alloc, Op::Join, x, y),
        Operator::Arithmetic(op) => apply_two(alloc, Op::Arithmetic(op), x, y),
        Operator::Compare(relation) => apply_two(alloc, Op::Compare(relation), x, y),
        Operator::Both => Ok(Expr::And(Boxed::new(alloc, x)?, Boxed::new(alloc, y)?)),
        Operator::Either => Ok(Expr::Or(Boxed::new(alloc, x)?, Boxed::new(alloc, y)?)),
    }
}

/// The constant as a term of a kind, which it has to fit.
fn constant_at(at: u32, kind: OperandKind, constant: Constant) -> Result<Term, Refusal>
    ensures { Gives (spec.constant_at at kind (Ok constant)) result }
{
    Ok(Term::Constant(kind, within(at, kind, constant)?))
}

/// An operator on two operands of a type.
fn computed(
    alloc: Global,
    at: u32,
    op: Operator,
    of: ValueType,
    a: Argument,
    b: Argument,
) -> Result<Term, Refusal>
    ensures { Gives (spec.computed at op of a b) result }
{
    let by_zero = op.divides() && b.term.is_zero_constant();
    let x = a.fitted(of)?;
    let y = b.fitted(of)?;
    if by_zero {
        return Err(Refusal::at(at, SourceKind::ConstDivide));
    }
    let kind = result_kind(op, OperandKind::Typed(of)).own_type();
    Ok(Term::Value(kind, operation(alloc, op, of, x, y)?))
}

/// An operator on two constants of a kind, each at its offset.
fn constants(
    alloc: Global,
    at: u32,
    op: Operator,
    kind: OperandKind,
    i: u32,
    c: Constant,
    j: u32,
    d: Constant,
) -> Result<Term, Refusal>
    ensures { Gives (spec.constants at op kind i c j d) result }
{
    let c = within(i, kind, c)?;
    let d = within(j, kind, d)?;
    let constant = binary_constant(alloc, at, op, &c, &d)?;
    constant_at(at, result_kind(op, kind), constant)
}

/// An operator on two operands that have or take one kind.
fn of_kind(
    alloc: Global,
    at: u32,
    op: Operator,
    kind: OperandKind,
    a: Argument,
    b: Argument,
) -> Result<Term, Refusal>
    ensures { Gives (spec.of_kind at op kind a.at a.term b.at b.term) result }
{
    let Argument { at: i, term: s } = a;
    let Argument { at: j, term: t } = b;
    match (s, t) {
        (Term::Constant(_, c), Term::Constant(_, d)) => {
            constants(alloc, at, op, kind, i, c, j, d)
        }
        (s, t) => {
            let a = Argument { at: i, term: s };
            let b = Argument { at: j, term: t };
            computed(alloc, at, op, kind.own_type(), a, b)
        }
    }
}

/// An operator but a shift.
fn plain(alloc: Global, at: u32, op: Operator, a: Argument, b: Argument) -> Result<Term, Refusal>
    ensures { Gives (spec.plain at op a b) result }
{
    match a.kind().common(b.kind()) {
        Some(kind) if is_for(op, kind) => of_kind(alloc, at, op, kind, a, b),
        _ => Err(Refusal::at(at, SourceKind::WrongType)),
    }
}

/// A shift of a value of a type.
fn shifted(
    alloc: Global,
    op: Operator,
    of: ValueType,
    a: Argument,
    b: Argument,
) -> Result<Term, Refusal>
    ensures { Gives (spec.shifted op of a b) result }
{
    let y = b.into_own_type()?;
    let x = a.fitted(of)?;
    Ok(Term::Value(of, operation(alloc, op, of, x, y)?))
}

/// A shift, by the kind of what is shifted, that isn't constant.
fn shift_by(
    alloc: Global,
    at: u32,
    op: Operator,
    a: Argument,
    kind: OperandKind,
    b: Argument,
) -> Result<Term, Refusal>
    ensures { Gives (spec.shift_by at op a kind b) result }
{
    match kind {
        OperandKind::Typed(of) => shifted(alloc, op, of, a, b),
        _ => Err(Refusal::at(at, SourceKind::UntypedShift)),
    }
}

/// A shift of integers by a count that isn't a negative constant.
fn shift_of(alloc: Global, at: u32, op: Operator, a: Argument, b: Argument) -> Result<Term, Refusal>
    ensures { Gives (spec.shift_of at op a.at a.term b.at b.term) result }
{
    let Argument { at: i, term: s } = a;
    let Argument { at: j, term: t } = b;
    match (s, t) {
        (Term::Constant(kind, c), Term::Constant(_, d)) => {
            let constant = binary_constant(alloc, at, op, &c, &d)?;
            constant_at(at, kind, constant)
        }
        (s, t) => {
            let a = Argument { at: i, term: s };
            let b = Argument { at: j, term: t };
            let kind = a.term.kind();
            shift_by(alloc, at, op, a, kind, b)
        }
    }
}

/// A shift.
fn shift(alloc: Global, at: u32, op: Operator, a: Argument, b: Argument) -> Result<Term, Refusal>
    ensures { Gives (spec.shift at op a b) result }
{
    if shift_kind(a.kind(), b.kind()).is_none() {
        return Err(Refusal::at(at, SourceKind::WrongType));
    }
    if b.term.is_negative_constant() {
        return Err(Refusal::at(b.at, SourceKind::ConstRange));
    }
    shift_of(alloc, at, op, a, b)
}

/// A binary operator at its offset.
#[tactic(auto, unfolding(crate::specs::Operands::binary))]
pub fn binary(
    alloc: Global,
    at: u32,
    op: Operator,
    a: Argument,
    b: Argument,
) -> Result<Term, Refusal>
    ensures { Gives (spec.binary at op a b) result }
{
    if op.shifts() {
        shift(alloc, at, op, a, b)
    } else {
        plain(alloc, at, op, a, b)
    }
}

/// What a unary operator does.
fn before(alloc: Global, op: UnaryOp, x: Expr) -> Result<Expr, NoMemory>
    ensures { IfOk result (λ e. e ≡ spec.before op x) }
{
    match op {
        UnaryOp::Plus => apply_one(alloc, Op::Plus, x),
        UnaryOp::Minus => apply_one(alloc, Op::Minus, x),
        UnaryOp::Not => apply_one(alloc, Op::Not, x),
        UnaryOp::Flip => apply_one(alloc, Op::Flip, x),
        UnaryOp::Receive => Ok(Expr::Receive(Boxed::new(alloc, x)?)),
    }
}

/// A unary operator at its offset.
#[tactic(auto, unfolding(crate::specs::Operands::unary))]
pub fn unary(alloc: Global, at: u32, op: UnaryOp, a: Argument) -> Result<Term, Refusal>
    ensures { Gives (spec.unary at op a) result }
{
    let Argument { at: _, term } = a;
    match unary_kind(op, term.kind()) {
        Some(kind) => unary_of(alloc, at, op, kind, term),
        None => Err(Refusal::at(at, SourceKind::WrongType)),
    }
}

/// A unary operator on a term, with the kind of its result.
fn unary_of(
    alloc: Global,
    at: u32,
    op: UnaryOp,
    kind: OperandKind,
    term: Term,
) -> Result<Term, Refusal>
    ensures { Gives (spec.unary_of at op kind term) result }
{
    match term {
        Term::Constant(of, constant) => {
            let constant = unary_constant(at, op, of, constant)?;
            constant_at(at, kind, constant)
        }
        Term::Nil => Err(Refusal::at(at, SourceKind::WrongType)),
        Term::Value(_, code) => Ok(Term::Value(kind.own_type(), before(alloc, op, code)?)),
    }
}
