//! The rules of operators, on the kinds of their operands.
ghost use Rattle.std.specs.Prelude.{◌≡◌};
ghost use Rattle.go_types.specs.Operators as spec;

use crate::kinds::OperandKind;
use go_ast::{BinaryOp, UnaryOp};
use go_meaning::Relation;
use go_value::IntOp;

/// What a binary operator is.
#[derive(Clone, Copy, PartialEq, Eq, Debug)]
pub enum Operator {
    /// An operator on integers; `+` is one on strings too.
    Arithmetic(IntOp),
    Compare(Relation),
    /// `&&`
    Both,
    /// `||`
    Either,
}

/// What a binary operator is.
pub fn operator_of(op: BinaryOp) -> Operator
    ensures { result ≡ spec.operator_of op }
{
    match op {
        BinaryOp::Mul => Operator::Arithmetic(IntOp::Mul),
        BinaryOp::Div => Operator::Arithmetic(IntOp::Div),
        BinaryOp::Rem => Operator::Arithmetic(IntOp::Rem),
        BinaryOp::Shl => Operator::Arithmetic(IntOp::Shl),
        BinaryOp::Shr => Operator::Arithmetic(IntOp::Shr),
        BinaryOp::And => Operator::Arithmetic(IntOp::And),
        BinaryOp::AndNot => Operator::Arithmetic(IntOp::AndNot),
        BinaryOp::Add => Operator::Arithmetic(IntOp::Add),
        BinaryOp::Sub => Operator::Arithmetic(IntOp::Sub),
        BinaryOp::Or => Operator::Arithmetic(IntOp::Or),
        BinaryOp::Xor => Operator::Arithmetic(IntOp::Xor),
        BinaryOp::Equal => Operator::Compare(Relation::Equal),
        BinaryOp::NotEqual => Operator::Compare(Relation::NotEqual),
        BinaryOp::Less => Operator::Compare(Relation::Less),
        BinaryOp::LessEqual => Operator::Compare(Relation::LessEqual),
        BinaryOp::Greater => Operator::Compare(Relation::Greater),
        BinaryOp::GreaterEqual => Operator::Compare(Relation::GreaterEqual),
        BinaryOp::BothOf => Operator::Both,
        BinaryOp::EitherOf => Operator::Either,
    }
}

/// Whether an operator is for operands of a kind.
pub fn is_for(op: Operator, kind: OperandKind) -> bool
    ensures { result ≡ spec.is_for op kind }
{
    match op {
        Operator::Arithmetic(IntOp::Add) => kind.is_integer() || kind.is_text(),
        Operator::Arithmetic(_) => kind.is_integer(),
        Operator::Compare(Relation::Equal | Relation::NotEqual) => true,
        Operator::Compare(_) => kind.is_integer() || kind.is_text(),
        Operator::Both | Operator::Either => kind.is_flag(),
    }
}

/// The kind of the result, where the operands have a kind.
pub fn result_kind(op: Operator, kind: OperandKind) -> OperandKind
    ensures { result ≡ spec.result_kind op kind }
{
    match op {
        Operator::Compare(_) => OperandKind::BOOL,
        _ => kind,
    }
}

/// The kind of a shift, if it may stand between such operands.
pub fn shift_kind(left: OperandKind, count: OperandKind) -> Option<OperandKind>
    ensures { result ≡ spec.shift_kind left count }
{
    if left.is_integer() && count.is_integer() {
        Some(left)
    } else {
        None
    }
}

/// The kind of the result of a binary operator, if it may stand between such operands. That of a comparison is untyped.
pub fn binary_kind(op: Operator, a: OperandKind, b: OperandKind) -> Option<OperandKind>
    ensures { result ≡ spec.binary_kind op a b }
{
    if let Operator::Arithmetic(IntOp::Shl | IntOp::Shr) = op {
        return shift_kind(a, b);
    }
    let kind = a.common(b)?;
    if is_for(op, kind) {
        Some(result_kind(op, kind))
    } else {
        None
    }
}

/// The kind of the result of a unary operator but a receive, if it may stand before such an operand.
pub fn unary_kind(op: UnaryOp, a: OperandKind) -> Option<OperandKind>
    ensures { result ≡ spec.unary_kind op a }
{
    match op {
        UnaryOp::Plus | UnaryOp::Minus | UnaryOp::Flip if a.is_integer() => Some(a),
        UnaryOp::Not if a.is_flag() => Some(a),
        UnaryOp::Receive => received_kind(a),
        _ => None,
    }
}

/// The kind of what a receive gives, if the operand is a channel.
fn received_kind(a: OperandKind) -> Option<OperandKind>
    ensures { result ≡ spec.received_kind a }
{
    match a {
        OperandKind::Typed(kind) if kind.is_channel() => Some(OperandKind::Typed(kind.element())),
        _ => None,
    }
}
