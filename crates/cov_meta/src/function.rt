//! The record of a function.
ghost use Rattle.std.specs.Prelude.{◌≤◌, ◌+◌, ◌<◌, ◌^◌, length, slice_get};
ghost use Rattle.cov_bytes.specs.Many.{many};
ghost use Rattle.cov_meta.specs.Fault.{Reads, Answers};
ghost use Rattle.cov_meta.specs.Function.{place_at, unit_at, named, text_at, count_at, function_at, placed_function, functions_at};

use crate::entries::OffsetField;
use crate::fault::MetaFault;
use crate::meta::{MetaFunction, MetaUnit, Place2};
use cov_bytes::{Cursor, StringTable};
use cov_outside::{DataKind, Sequence, Text, Which};
use std::alloc::Global;

#[tactic(auto, unfolding(crate::specs::Function::place_at))]
fn read_place(cursor: &mut Cursor<'_>) -> Result<Place2, MetaFault>
    ensures { Reads (λ h. h) cursor.old cursor.new result (place_at cursor.old.bytes cursor.old.at) }
{
    let line = cursor.uleb()?;
    let column = cursor.uleb()?;
    Ok(Place2 { line, column })
}

#[tactic(auto, unfolding(crate::specs::Function::unit_at))]
fn read_unit(cursor: &mut Cursor<'_>) -> Result<MetaUnit, MetaFault>
    ensures { Reads (λ h. h) cursor.old cursor.new result (unit_at cursor.old.bytes cursor.old.at) }
{
    let start = read_place(cursor)?;
    let end = read_place(cursor)?;
    let statements = cursor.uleb()?;
    Ok(MetaUnit {
        start,
        end,
        statements,
    })
}

/// The text with a number that stands at an offset.
pub fn text_of(alloc: Global, texts: &StringTable, index: u32, at: u64) -> Result<Text, MetaFault>
    requires { length texts.now < 2 ^ 32 }
    ensures { Answers result (named (slice_get texts.now index) index (length texts.now) at) }
{
    match texts.get(index) {
        Some(text) => Ok(Text::of(alloc, text)?),
        None => Err(MetaFault::At {
            offset: at,
            kind: DataKind::BadString {
                index,
                count: texts.len() as u32,
            },
        }),
    }
}

#[tactic(auto, unfolding(crate::specs::Function::text_at))]
fn read_text(alloc: Global, cursor: &mut Cursor<'_>, texts: &StringTable) -> Result<Text, MetaFault>
    requires { length texts.now < 2 ^ 32 }
    ensures { Reads (λ h. h) cursor.old cursor.new result (text_at texts.now cursor.old.bytes cursor.old.at) }
{
    let at = cursor.at() as u64;
    let index = cursor.uleb()?;
    text_of(alloc, texts, index, at)
}

#[tactic(auto, unfolding(crate::specs::Function::count_at))]
fn read_count(cursor: &mut Cursor<'_>, units: u64) -> Result<u32, MetaFault>
    ensures { Reads (λ h. h) cursor.old cursor.new result (count_at units cursor.old.bytes cursor.old.at) }
{
    let count = cursor.uleb()?;
    if u64::from(count) > units {
        return Err(MetaFault::Limit(Which::Units));
    }
    Ok(count)
}

fn read_units(
    alloc: Global,
    cursor: &mut Cursor<'_>,
    count: u32,
) -> Result<Vec<MetaUnit>, MetaFault>
    ensures { Reads (λ v. v.items) cursor.old cursor.new result (many (unit_at cursor.old.bytes) count cursor.old.at) }
{
    let mut units = Vec::new(alloc);
    for _ in 0..count {
        let unit = read_unit(cursor)?;
        units.push(unit)?;
    }
    Ok(units)
}

/// One record. So many `units` may still come.
#[tactic(auto, unfolding(crate::specs::Function::function_at))]
fn read_function(
    alloc: Global,
    cursor: &mut Cursor<'_>,
    texts: &StringTable,
    units: u64,
) -> Result<MetaFunction, MetaFault>
    requires { length texts.now < 2 ^ 32 }
    ensures { Reads (λ h. h) cursor.old cursor.new result (function_at texts.now units cursor.old.bytes cursor.old.at) }
{
    let count = read_count(cursor, units)?;
    let name = read_text(alloc, cursor, texts)?;
    let file = read_text(alloc, cursor, texts)?;
    let list = read_units(alloc, cursor, count)?;
    let literal = cursor.uleb()?;
    Ok(MetaFunction {
        name,
        file,
        literal: literal != 0,
        units: Sequence::from_vec(list),
    })
}

/// The record at an offset from the blob's `start`, in bytes that end where the blob ends, and how
/// many units may still come.
#[tactic(auto, unfolding(crate::specs::Function::placed_function))]
fn read_placed(
    alloc: Global,
    bytes: &[u8],
    texts: &StringTable,
    start: usize,
    place: OffsetField,
    units: u64,
) -> Result<(MetaFunction, u64), MetaFault>
    requires few { length texts.now < 2 ^ 32 }
    requires start { start ≤ length bytes.now }
    ensures { Answers result (placed_function texts.now bytes.now start place units) }
{
    if place.offset > (bytes.len() - start) as u64 {
        return Err(MetaFault::At {
            offset: place.at,
            kind: DataKind::Short,
        });
    }
    let mut cursor = Cursor::new(bytes);
    cursor.seek(start + place.offset as usize)?;
    let function = read_function(alloc, &mut cursor, texts, units)?;
    let left = units.saturating_sub(function.units.len() as u64);
    Ok((function, left))
}

/// All records, and how many units may still come.
#[tactic(auto, unfolding(crate::specs::Function::functions_at))]
pub fn read_functions(
    alloc: Global,
    bytes: &[u8],
    texts: &StringTable,
    start: usize,
    places: &[OffsetField],
    units: u64,
) -> Result<(Sequence<MetaFunction>, u64), MetaFault>
    requires few { length texts.now < 2 ^ 32 }
    requires start { start ≤ length bytes.now }
    ensures { Answers result (functions_at texts.now bytes.now start places.now units) }
{
    let mut functions = Sequence::new(alloc);
    let mut left = units;
    for place in places {
        let (function, behind) = read_placed(alloc, bytes, texts, start, *place, left)?;
        functions.push(function)?;
        left = behind;
    }
    Ok((functions, left))
}
