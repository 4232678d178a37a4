//! Operations on integers.
ghost use Rattle.std.specs.Prelude.{◌≡◌, ◌<◌, ◌^◌, ◌≤ℤ◌, pos, unsigned_abs, min, None};
ghost use Rattle.go_value.specs.Integers.{wrap};
ghost use Rattle.go_value.specs.Operations.{exact, fault, int_result, is_division, is_shift};
ghost use Rattle.go_value.specs.declared.kind.Kind.{Kind};

use crate::fault::ValueFault;
use crate::int::Int;

/// An operator on integers. `AndNot` is `&^`: it clears the bits of the right operand.
#[derive(Clone, Copy, Debug, PartialEq, Eq)]
pub enum IntOp {
    Add,
    Sub,
    Mul,
    Div,
    Rem,
    And,
    Or,
    Xor,
    AndNot,
    Shl,
    Shr,
}

impl IntOp {
    /// Whether the right operand is a divisor.
    pub fn is_division(self) -> bool
        ensures { result ≡ is_division self }
    {
        matches!(self, IntOp::Div | IntOp::Rem)
    }

    /// Whether the right operand is a shift count.
    pub fn is_shift(self) -> bool
        ensures { result ≡ is_shift self }
    {
        matches!(self, IntOp::Shl | IntOp::Shr)
    }
}

/// Why the operator has no result for a right operand.
#[tactic(auto, unfolding(crate::specs::Operations::fault))]
fn fault_of(op: IntOp, right: i128) -> Option<ValueFault>
    ensures { result ≡ fault op right }
{
    if op.is_division() && right == 0 {
        Some(ValueFault::DivideByZero)
    } else if op.is_shift() && right < 0 {
        Some(ValueFault::NegativeShift)
    } else {
        None
    }
}

/// How far to shift, where a shift by more than `most` has the result of one by `most`.
pub(crate) fn shift_count(count: i128, most: u32) -> u32
    requires { pos 0 ≤ℤ count }
    ensures { result ≡ min (unsigned_abs count) most }
{
    count.min(i128::from(most)) as u32
}

/// A number with the low 64 bits of the result.
fn wide_result(op: IntOp, a: i128, b: i128) -> i128
    requires defined { fault op b ≡ None }
    requires left { unsigned_abs a < 2 ^ 64 }
    requires right { unsigned_abs b < 2 ^ 64 }
    ensures { (kind : Kind) → wrap kind result ≡ wrap kind (exact op a b) }
{
    match op {
        IntOp::Add => a + b,
        IntOp::Sub => a - b,
        IntOp::Mul => a.wrapping_mul(b),
        IntOp::Div => a / b,
        IntOp::Rem => a % b,
        IntOp::And => a & b,
        IntOp::Or => a | b,
        IntOp::Xor => a ^ b,
        IntOp::AndNot => a & !b,
        IntOp::Shl => a << shift_count(b, 64),
        IntOp::Shr => a >> shift_count(b, 64),
    }
}

/// The result of an operator, which wraps. It has the kind of `a`; operands have one kind, except those of a shift.
pub fn int_op(op: IntOp, a: Int, b: Int) -> Result<Int, ValueFault>
    ensures { result ≡ int_result op a b }
{
    let right = b.value();
    match fault_of(op, right) {
        Some(fault) => Err(fault),
        None => Ok(Int::wrapped(a.kind, wide_result(op, a.value(), right))),
    }
}
