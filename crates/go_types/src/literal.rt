//! Integer literals.
ghost use Rattle.std.specs.Prelude.{◌≡◌, ◌+◌, ◌*◌, ◌^◌, ◌<◌, ◌≤◌, length, drop};
ghost use Rattle.std.specs.Char.{digit_value};
ghost use Rattle.std.specs.Option.{SomeIff};
ghost use Rattle.go_ast.specs.Numbers.{is_x as x_letter, is_o as o_letter, is_b as b_letter};
ghost use Rattle.go_types.specs.Checking.{Gives};
ghost use Rattle.go_types.specs.Literals as spec;

use crate::constant::Constant;
use crate::fault::Refusal;
use go_ast::SourceKind;

/// The value of an integer literal, at its offset.
pub fn int_literal(at: u32, bytes: &[u8]) -> Result<Constant, Refusal>
    ensures { Gives (spec.int_literal at bytes.now) result }
{
    match number(bytes).and_then(|number| i128::try_from(number).ok()) {
        Some(number) => Ok(Constant::Number(number)),
        None => Err(Refusal::at(at, SourceKind::ConstRange)),
    }
}

/// The number that a literal stands for, if it is below 2^128.
fn number(bytes: &[u8]) -> Option<u128>
    ensures { SomeIff result (spec.number bytes.now < 2 ^ 128) (spec.number bytes.now) }
{
    match bytes {
        [b'0', b'x' | b'X', digits @ ..] => digits_value(16, digits),
        [b'0', b'b' | b'B', digits @ ..] => digits_value(2, digits),
        [b'0', b'o' | b'O', digits @ ..] => digits_value(8, digits),
        [b'0', digits @ ..] => digits_value(8, digits),
        digits => digits_value(10, digits),
    }
}

/// The number that digits in a base stand for, if it is below 2^128.
#[tactic(auto, using(crate::proofs::Literals::digits_value_least))]
fn digits_value(base: u128, digits: &[u8]) -> Option<u128>
    requires { 1 ≤ base }
    ensures { SomeIff result (spec.digits_value base 0 digits.now < 2 ^ 128) (spec.digits_value base 0 digits.now) }
{
    let mut value: u128 = 0;
    for byte in digits {
        if *byte != b'_' {
            match next(base, value, *byte) {
                Some(more) => value = more,
                None => return None,
            }
        }
    }
    Some(value)
}

/// The number with one more digit, if it is below 2^128.
fn next(base: u128, value: u128, byte: u8) -> Option<u128>
    ensures { let more = value * base + digit_value byte in SomeIff result (more < 2 ^ 128) more }
{
    value
        .checked_mul(base)?
        .checked_add(u128::from(digit(byte)))
}

/// The value of a digit.
fn digit(byte: u8) -> u8
    ensures { result ≡ digit_value byte }
{
    match byte {
        b'0'..=b'9' => byte - b'0',
        b'A'..=b'Z' => byte - b'A' + 10,
        b'a'..=b'z' => byte - b'a' + 10,
        _ => 36,
    }
}
