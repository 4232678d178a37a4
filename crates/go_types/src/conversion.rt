//! Conversions.
ghost use Rattle.std.specs.Prelude.{◌≡◌};
ghost use Rattle.go_types.specs.Operators as spec;

use crate::kinds::OperandKind;
use crate::types::ValueType;

/// What a conversion does.
#[derive(Clone, Copy, PartialEq, Eq, Debug)]
pub enum Conversion {
    /// An integer becomes one of another kind.
    Convert(go_value::Kind),
    /// An integer becomes the UTF-8 of that code point.
    Spell,
    /// A value stays as it is.
    Keep,
}

/// What the conversion of an operand to a type does, if there is one.
pub fn conversion_to(from: OperandKind, to: ValueType) -> Option<Conversion>
    ensures { result ≡ spec.conversion_to to from }
{
    if from.is_integer() && to.is_text() {
        return Some(Conversion::Spell);
    }
    if from.is_integer() {
        return Some(Conversion::Convert(to.int_kind()?));
    }
    if from.is_assignable(to) {
        Some(Conversion::Keep)
    } else {
        None
    }
}
