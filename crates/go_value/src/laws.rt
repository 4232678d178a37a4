//! What the operators mean over whole numbers, in the words of the Go specification. The calls do nothing.
ghost use Rattle.std.specs.Prelude.{◌≡◌, ◌≢◌, ℕ, ◌+◌, ◌-◌, ◌%◌, ◌^◌, ◌<◌, min, max, ℤ, pos, ◌+ℤ◌, ◌*ℤ◌, ◌≤ℤ◌, ◌<ℤ◌, unsigned_abs};
ghost use Rattle.go_value.specs.Residues.{residue};
ghost use Rattle.go_value.specs.Kinds.{width, IsOfKind};
ghost use Rattle.go_value.specs.Integers.{value_of, wrap};
ghost use Rattle.go_value.specs.Bits.{bit_of};
ghost use Rattle.go_value.specs.Operations.{exact};
ghost use Rattle.go_value.specs.declared.kind.Kind.{Kind};
ghost use Rattle.go_value.specs.declared.int.Int.{Int};
ghost use Rattle.go_value.specs.declared.operation.IntOp.TheVariants.{Div, Rem, And, Or, Xor, AndNot, Shr};

/// An integer of a kind stands for one whole number in the kind's range. Wrapping a whole number into a kind gives the
/// integer whose number is a multiple of 2 to the power of the width away, so it keeps what is in range.
pub fn integers_of_kinds()
    ensures range { (i : Int) → IsOfKind i.kind (value_of i) }
    ensures own { (i : Int) → wrap i.kind (value_of i) ≡ i }
    ensures kept { (kind : Kind) (z : ℤ) → IsOfKind kind z → value_of (wrap kind z) ≡ z }
    ensures multiple { (kind : Kind) (z : ℤ) → (q : ℤ) × (value_of (wrap kind z) +ℤ q *ℤ pos (2 ^ width kind) ≡ z) }
{}

/// The bit operators act on each bit by itself, and a whole number is known by its bits.
pub fn bit_by_bit()
    ensures and { (k : ℕ) (a b : ℤ) → bit_of k (exact And a b) ≡ min (bit_of k a) (bit_of k b) }
    ensures or { (k : ℕ) (a b : ℤ) → bit_of k (exact Or a b) ≡ max (bit_of k a) (bit_of k b) }
    ensures xor { (k : ℕ) (a b : ℤ) → bit_of k (exact Xor a b) ≡ (bit_of k a + bit_of k b) % 2 }
    ensures and_not { (k : ℕ) (a b : ℤ) → bit_of k (exact AndNot a b) ≡ min (bit_of k a) (1 - bit_of k b) }
    ensures known { (a b : ℤ) → ((k : ℕ) → bit_of k a ≡ bit_of k b) → a ≡ b }
{}

/// The quotient times the divisor and the remainder are the dividend; the remainder is nearer to 0 than the divisor, and
/// has the dividend's sign or is 0.
pub fn quotient_and_remainder()
    ensures whole { (a b : ℤ) → exact Div a b *ℤ b +ℤ exact Rem a b ≡ a }
    ensures small { (a b : ℤ) → b ≢ pos 0 → unsigned_abs (exact Rem a b) < unsigned_abs b }
    ensures from_above { (a b : ℤ) → pos 0 ≤ℤ a → pos 0 ≤ℤ exact Rem a b }
    ensures from_below { (a b : ℤ) → a ≤ℤ pos 0 → exact Rem a b ≤ℤ pos 0 }
{}

/// A right shift loses the low bits and no more, so it rounds down.
pub fn low_bits_lost()
    ensures { (a : ℤ) (n : ℕ) → exact Shr a (pos n) *ℤ pos (2 ^ n) +ℤ pos (residue n a) ≡ a }
{}
