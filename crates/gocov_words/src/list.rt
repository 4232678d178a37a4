//! Lists with commas.
ghost use Rattle.std.specs.Prelude.{◌≡◌, All, IfOk, length};
ghost use Rattle.std.specs.Str.{IsUtf8};
ghost use Rattle.gocov_words.specs.Values as values;

use cov_outside::{NoMemory, Sequence, Text};
use std::alloc::Global;

/// Whether no piece between commas is empty.
pub fn is_list(value: &str) -> bool
    ensures { result ≡ values.is_list value.now }
{
    value.split(',').all(|piece| !piece.is_empty())
}

/// How many pieces there are between commas.
pub fn count_pieces(value: &str) -> usize
    ensures { result ≡ length (values.pieces value.now) }
{
    value.split(',').count()
}

/// The pieces between commas.
pub fn pieces(alloc: Global, value: &str) -> Result<Sequence<Text>, NoMemory>
    ensures pieces { IfOk result (λ texts. texts ≡ values.pieces value.now) }
    ensures utf8 { IfOk result (λ texts. All IsUtf8 texts) }
{
    let mut texts = Sequence::new(alloc);
    for piece in value.split(',') {
        texts.push(Text::of(alloc, piece.as_bytes())?)?;
    }
    Ok(texts)
}
