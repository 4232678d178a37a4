//! What holds of every meta file that is written.
ghost use Rattle.std.specs.Prelude.{◌≡◌, ◌≤◌, Ok, length};
ghost use Rattle.cov_meta.specs.File.{meta_of};
ghost use Rattle.cov_meta.specs.Hash.{meta_hash};
ghost use Rattle.cov_meta.specs.Spelling.{Spells};
ghost use Rattle.cov_meta.specs.Written.{KeepsLimits, NumbersFit, meta_text};
ghost use Rattle.cov_meta.specs.declared.meta.Meta.{Meta};

/// What is written for a value that keeps the limits spells this value, and is read as it, where
/// it keeps the limit on the bytes of a file.
pub fn written_laws()
    ensures spelled { (meta : Meta) → KeepsLimits meta → NumbersFit meta → length (meta_text meta) ≤ 268435456
        → Spells (meta_text meta) (record { hash = meta_hash meta; meta = meta }) }
    ensures read { (meta : Meta) → KeepsLimits meta → NumbersFit meta → length (meta_text meta) ≤ 268435456
        → meta_of (meta_text meta) ≡ Ok (record { hash = meta_hash meta; meta = meta }) }
{
    cov_bytes::laws::fixed();
    cov_bytes::laws::numbers();
    cov_bytes::laws::tables();
}
