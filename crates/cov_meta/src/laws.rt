//! What holds of every meta file.
ghost use Rattle.std.specs.Prelude.{◌≡◌, ◌≢◌, ℕ, List, Ok, Err};
ghost use Rattle.cov_meta.specs.declared.fault.MetaFault.TheVariants as meta_fault;
ghost use Rattle.cov_meta.specs.declared.meta.MetaFile.{MetaFile};
ghost use Rattle.cov_meta.specs.File.{meta_of};
ghost use Rattle.cov_meta.specs.Spelling.{Spells};

/// Reading gives a value exactly where the bytes spell it. No bytes spell two values, and those
/// that spell none have a fault of their own.
pub fn laws()
    ensures read_is_spelled { (bytes : List ℕ) (file : MetaFile) → meta_of bytes ≡ Ok file → Spells bytes file }
    ensures spelled_is_read { (bytes : List ℕ) (file : MetaFile) → Spells bytes file → meta_of bytes ≡ Ok file }
    ensures one_value { (bytes : List ℕ) (file other : MetaFile) → Spells bytes file → Spells bytes other → file ≡ other }
    ensures own_fault { (bytes : List ℕ) → meta_of bytes ≢ Err meta_fault.NoMemory }
{}
