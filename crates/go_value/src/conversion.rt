//! Conversion of integers.
ghost use Rattle.std.specs.Prelude.{◌≡◌, ◌%◌, ◌^◌, min};
ghost use Rattle.go_value.specs.Kinds.{width};
ghost use Rattle.go_value.specs.Integers.{value_of, wrap};

use crate::int::Int;
use crate::kind::Kind;

/// The integer of a kind with the same low bits, which is extended by its sign where that kind is wider.
pub fn convert(a: Int, to: Kind) -> Int
    ensures int { result ≡ wrap to (value_of a) }
    ensures low_bits { let least = min (width a.kind) (width to) in result.bits % 2 ^ least ≡ a.bits % 2 ^ least }
{
    Int::wrapped(to, a.value())
}
