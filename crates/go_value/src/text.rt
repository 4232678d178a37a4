//! Operations on texts: lists of bytes, each from 0 to 255.
ghost use Rattle.std.specs.Prelude.{◌≡◌};
ghost use Rattle.go_value.specs.Texts.{byte_at, cut, joined, Answers};

use crate::fault::{OutOfRange, TextFault};
use std::alloc::Global;

/// How many bytes a text has at most.
pub const STRING_LIMIT: usize = 1_048_576;

/// The byte of a text at an index from 0.
pub fn index(s: &[u8], i: i64) -> Result<u8, OutOfRange>
    ensures { result ≡ byte_at s.now i }
{
    let i = usize::try_from(i).map_err(|_| OutOfRange)?;
    s.get(i).copied().ok_or(OutOfRange)
}

/// The bytes of a text from `lo` to before `hi`.
pub fn cut_text(alloc: Global, s: &[u8], lo: i64, hi: i64) -> Result<Vec<u8>, TextFault>
    ensures { Answers (λ v. v.items) result (cut s.now lo hi) }
{
    let lo = usize::try_from(lo).map_err(|_| TextFault::OutOfRange)?;
    let hi = usize::try_from(hi).map_err(|_| TextFault::OutOfRange)?;
    if lo > hi || hi > s.len() {
        return Err(TextFault::OutOfRange);
    }
    if hi - lo > STRING_LIMIT {
        return Err(TextFault::StringLimit);
    }
    Ok(Vec::from_slice(alloc, &s[lo..hi])?)
}

/// The bytes of one text, then those of another.
pub fn join_text(alloc: Global, a: &[u8], b: &[u8]) -> Result<Vec<u8>, TextFault>
    ensures { Answers (λ v. v.items) result (joined a.now b.now) }
{
    if a.len() > STRING_LIMIT || b.len() > STRING_LIMIT - a.len() {
        return Err(TextFault::StringLimit);
    }
    let mut text = Vec::with_capacity(alloc, a.len() + b.len())?;
    text.extend_from_slice(a)?;
    text.extend_from_slice(b)?;
    Ok(text)
}
