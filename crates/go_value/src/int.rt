//! Integers of a kind.
ghost use Rattle.std.specs.Prelude.{◌≡◌, ◌^◌, ◌<◌};
ghost use Rattle.go_value.specs.Kinds.{width, number_of};

use crate::kind::Kind;

/// An integer: its kind, and its bits in two's complement.
#[derive(Clone, Copy, Debug, PartialEq, Eq)]
pub struct Int {
    pub kind: Kind,
    /// Below 2 to the power of the kind's width.
    pub bits: u64,
    pub ghost in_width: { bits < 2 ^ width kind },
}

impl Int {
    ghost use Rattle.go_value.specs.Kinds.{IsOfKind};
    ghost use Rattle.go_value.specs.Integers.{value_of, wrap};

    /// The whole number that the integer stands for.
    pub fn value(self) -> i128
        ensures value { result ≡ value_of self }
        ensures range { IsOfKind self.kind result }
    {
        number(self.kind, self.bits)
    }

    /// The integer of a kind that differs from `value` by a multiple of 2 to the power of the kind's width.
    pub fn wrapped(kind: Kind, value: i128) -> Int
        ensures int { result ≡ wrap kind value }
        ensures kept { IsOfKind kind value → value_of result ≡ value }
    {
        let low = value.cast_unsigned() & u128::from(kind.mask());
        Int {
            kind,
            bits: low as u64,
        }
    }
}

/// What the bits of an integer of a kind stand for.
fn number(kind: Kind, bits: u64) -> i128
    requires { bits < 2 ^ width kind }
    ensures { result ≡ number_of kind bits }
{
    let mask = kind.mask();
    if kind.is_signed() && bits > mask / 2 {
        i128::from(bits) - i128::from(mask) - 1
    } else {
        i128::from(bits)
    }
}
