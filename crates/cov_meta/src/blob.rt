//! A package's blob.
ghost use Rattle.std.specs.Prelude.{◌≡◌, ◌≤◌, ◌-◌, ◌<◌, ◌^◌, length, sum_by, IfOk};
ghost use Rattle.cov_meta.specs.Fault.{Reads, Answers};
ghost use Rattle.cov_meta.specs.Blob.{numbers_at, functions_count_at, texts_at, names_of, left_behind, blob_at};

use crate::allowance::{Allowance, MAX_TEXT_BYTES};
use crate::entries::{Width, read_offsets};
use crate::fault::MetaFault;
use crate::function::{read_functions, text_of};
use crate::meta::MetaPackage;
use cov_bytes::{Cursor, StringTable, TextLimits};
use cov_outside::{Text, Which};
use std::alloc::Global;

/// The numbers of a package's texts in its string table.
#[derive(Clone, Copy, Debug)]
pub struct TextNumbers {
    pub name: u32,
    pub path: u32,
    pub module: u32,
}

/// The texts that name a package.
#[derive(Debug, Drop)]
pub struct PackageNames {
    pub name: Text,
    pub path: Text,
    pub module: Text,
}

#[tactic(auto, unfolding(crate::specs::Blob::numbers_at))]
fn read_numbers(cursor: &mut Cursor<'_>) -> Result<TextNumbers, MetaFault>
    ensures { Reads (λ h. h) cursor.old cursor.new result (numbers_at cursor.old.bytes cursor.old.at) }
{
    let _length = cursor.u32_le()?;
    let name = cursor.u32_le()?;
    let path = cursor.u32_le()?;
    let module = cursor.u32_le()?;
    Ok(TextNumbers { name, path, module })
}

#[tactic(auto, unfolding(crate::specs::Blob::functions_count_at))]
fn read_functions_count(cursor: &mut Cursor<'_>, functions: u64) -> Result<u32, MetaFault>
    ensures { Reads (λ h. h) cursor.old cursor.new result (functions_count_at functions cursor.old.bytes cursor.old.at) }
{
    let _hash = cursor.take(16)?;
    let _unused = cursor.u32_le()?;
    let _files = cursor.u32_le()?;
    let count = cursor.u32_le()?;
    if u64::from(count) > functions {
        return Err(MetaFault::Limit(Which::Functions));
    }
    Ok(count)
}

#[tactic(auto, unfolding(crate::specs::Blob::texts_at))]
fn read_texts(
    alloc: Global,
    cursor: &mut Cursor<'_>,
    left: Allowance,
) -> Result<StringTable, MetaFault>
    ensures texts { Reads (λ h. h) cursor.old cursor.new result (texts_at left cursor.old.bytes cursor.old.at) }
    ensures few { IfOk result (λ texts. length texts < 2 ^ 32) }
{
    let limits = TextLimits {
        strings: left.strings,
        one: MAX_TEXT_BYTES,
        all: left.string_bytes,
    };
    Ok(StringTable::read(alloc, cursor, &limits)?)
}

#[tactic(auto, unfolding(crate::specs::Blob::names_of))]
fn names_of(
    alloc: Global,
    texts: &StringTable,
    start: usize,
    numbers: TextNumbers,
) -> Result<PackageNames, MetaFault>
    requires few { length texts.now < 2 ^ 32 }
    requires start { start < 2 ^ 63 }
    ensures { Answers result (names_of texts.now start numbers) }
{
    let at = start as u64;
    let name = text_of(alloc, texts, numbers.name, at + 4)?;
    let path = text_of(alloc, texts, numbers.path, at + 8)?;
    let module = text_of(alloc, texts, numbers.module, at + 12)?;
    Ok(PackageNames { name, path, module })
}

/// What of so many bytes the texts leave.
fn bytes_behind(texts: &StringTable, bytes: u64) -> u64
    requires { length texts.now < 2 ^ 32 }
    ensures { result ≡ bytes - sum_by length texts.now }
{
    let mut left = bytes;
    for index in 0..texts.len() as u32 {
        if let Some(text) = texts.get(index) {
            left = left.saturating_sub(text.len() as u64);
        }
    }
    left
}

fn left_behind(left: Allowance, functions: u32, texts: &StringTable, units: u64) -> Allowance
    requires { length texts.now < 2 ^ 32 }
    ensures { result ≡ left_behind left functions texts.now units }
{
    Allowance {
        functions: left.functions.saturating_sub(u64::from(functions)),
        strings: left.strings.saturating_sub(texts.len() as u64),
        string_bytes: bytes_behind(texts, left.string_bytes),
        units,
    }
}

/// The package whose blob begins at `start`, in bytes that end where the blob ends, and what is
/// left of the limits.
#[tactic(auto, unfolding(crate::specs::Blob::blob_at))]
pub fn read_blob(
    alloc: Global,
    bytes: &[u8],
    start: usize,
    left: Allowance,
) -> Result<(MetaPackage, Allowance), MetaFault>
    requires { start ≤ length bytes.now }
    ensures { Answers result (blob_at bytes.now start left) }
{
    let mut cursor = Cursor::new(bytes);
    cursor.seek(start)?;
    let numbers = read_numbers(&mut cursor)?;
    let count = read_functions_count(&mut cursor, left.functions)?;
    let places = read_offsets(alloc, &mut cursor, Width::Four, u64::from(count))?;
    let texts = read_texts(alloc, &mut cursor, left)?;
    let names = names_of(alloc, &texts, start, numbers)?;
    let (functions, units) = read_functions(alloc, bytes, &texts, start, &places, left.units)?;
    let package = MetaPackage {
        name: names.name,
        path: names.path,
        module: names.module,
        functions,
    };
    Ok((package, left_behind(left, count, &texts, units)))
}
