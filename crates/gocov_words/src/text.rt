//! Texts of values.
ghost use Rattle.std.specs.Prelude.{◌≡◌, All, IfOk, IfSome};
ghost use Rattle.std.specs.Str.{IsUtf8};
ghost use Rattle.gocov_words.specs.Data.{text_in, list_in};

use crate::flags::Value;
use crate::list::pieces;
use cov_outside::{NoMemory, Sequence, Text};
use std::alloc::Global;

/// The text of a value.
pub fn text_of(alloc: Global, value: Option<Value<'_>>) -> Result<Option<Text>, NoMemory>
    ensures text { IfOk result (λ text. text ≡ text_in value.entry) }
    ensures utf8 { IfOk result (λ text. IfSome text IsUtf8) }
{
    match value {
        None => Ok(None),
        Some(value) => Ok(Some(Text::of(alloc, value.text.as_bytes())?)),
    }
}

/// The pieces of a value between commas.
pub fn list_of(alloc: Global, value: Option<Value<'_>>) -> Result<Sequence<Text>, NoMemory>
    ensures pieces { IfOk result (λ texts. texts ≡ list_in value.entry) }
    ensures utf8 { IfOk result (λ texts. All IsUtf8 texts) }
{
    match value {
        None => Ok(Sequence::new(alloc)),
        Some(value) => pieces(alloc, value.text),
    }
}
