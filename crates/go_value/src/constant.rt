//! Operations on integer constants, which are exact.
ghost use Rattle.std.specs.Prelude.{◌≡◌, ◌≤ℤ◌, ◌*ℤ◌, ◌^◌, pos, unsigned_abs, FitsSigned, None};
ghost use Rattle.std.specs.Int.{w128};
ghost use Rattle.std.specs.Option.{SomeIff};
ghost use Rattle.go_value.specs.Operations.{exact};
ghost use Rattle.go_value.specs.Constants.{const_fault, const_result};

use crate::fault::ConstFault;
use crate::operation::{IntOp, shift_count};

/// The result of an operator on constants, which have signed 128 bits.
///
/// A shift by a negative count is out of range.
pub fn const_op(op: IntOp, a: i128, b: i128) -> Result<i128, ConstFault>
    ensures { result ≡ const_result op a b }
{
    match fault_of(op, b) {
        Some(fault) => Err(fault),
        None => exact_result(op, a, b).ok_or(ConstFault::ConstRange),
    }
}

/// Why the operator has no result for a right operand.
#[tactic(auto, unfolding(crate::specs::Constants::const_fault))]
fn fault_of(op: IntOp, right: i128) -> Option<ConstFault>
    ensures { result ≡ const_fault op right }
{
    if op.is_division() && right == 0 {
        Some(ConstFault::ConstDivide)
    } else if op.is_shift() && right < 0 {
        Some(ConstFault::ConstRange)
    } else {
        None
    }
}

/// The result, where it has 128 bits.
fn exact_result(op: IntOp, a: i128, b: i128) -> Option<i128>
    requires { const_fault op b ≡ None }
    ensures { SomeIff result (FitsSigned w128 (exact op a b)) (exact op a b) }
{
    match op {
        IntOp::Add => a.checked_add(b),
        IntOp::Sub => a.checked_sub(b),
        IntOp::Mul => a.checked_mul(b),
        IntOp::Div => a.checked_div(b),
        IntOp::Rem => Some(a.wrapping_rem(b)),
        IntOp::And => Some(a & b),
        IntOp::Or => Some(a | b),
        IntOp::Xor => Some(a ^ b),
        IntOp::AndNot => Some(a & !b),
        IntOp::Shl => shifted_left(a, b),
        IntOp::Shr => Some(a >> shift_count(b, 127)),
    }
}

/// a times 2 to the power of the count, where that has 128 bits.
fn shifted_left(a: i128, count: i128) -> Option<i128>
    requires { pos 0 ≤ℤ count }
    ensures { let product = a *ℤ pos (2 ^ unsigned_abs count) in SomeIff result (FitsSigned w128 product) product }
{
    if a == 0 {
        return Some(0);
    }
    if count > 127 {
        return None;
    }
    let by = count as u32;
    // What would leave the 128 bits has to be copies of the sign.
    let high = a >> (127 - by);
    if high == 0 || high == -1 {
        Some(a << by)
    } else {
        None
    }
}
