//! What holds of every counter file: each law is what a function without parameters ensures.
ghost use Rattle.std.specs.Prelude.{◌≡◌, ℕ, List, Ok, Some};
ghost use Rattle.cov_counter.specs.Reader.{whole_of};
ghost use Rattle.cov_counter.specs.Spelling.{Spells};
ghost use Rattle.cov_counter.specs.Text.{WrittenIsSpelled};
ghost use Rattle.cov_counter.specs.declared.entry.Entry.{Entry};
ghost use Rattle.cov_counter.specs.declared.head.Head.{Head};

/// Reading a whole file gives a value exactly where its bytes spell it, and no bytes spell two values.
pub fn reading()
    ensures read_is_spelled { (bytes : List ℕ) (head : Head) (entries : List (ℕ × Entry)) → whole_of (Some bytes) ≡ Ok (head, entries) → Spells bytes head entries }
    ensures spelled_is_read { (bytes : List ℕ) (head : Head) (entries : List (ℕ × Entry)) → Spells bytes head entries → whole_of (Some bytes) ≡ Ok (head, entries) }
    ensures one_value { (bytes : List ℕ) (head other : Head) (entries others : List (ℕ × Entry)) → Spells bytes head entries → Spells bytes other others → (head ≡ other) × (entries ≡ others) }
{
    cov_bytes::laws::numbers();
}

/// What is written within the limit on data files spells what was written.
pub fn writing()
    ensures { WrittenIsSpelled }
{
    cov_bytes::laws::numbers();
    cov_bytes::laws::fixed();
}
