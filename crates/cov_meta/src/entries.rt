//! Where the package blobs stand.
ghost use Rattle.cov_bytes.specs.Many.{many};
ghost use Rattle.cov_meta.specs.Fault.{Reads};
ghost use Rattle.cov_meta.specs.Each.{each};
ghost use Rattle.cov_meta.specs.Entries.{offset_at, length_at, entries_at};

use crate::fault::MetaFault;
use cov_bytes::Cursor;
use std::alloc::Global;

/// How many bytes an offset has.
#[derive(Clone, Copy, Debug)]
pub enum Width {
    Four,
    Eight,
}

/// An offset and where it stands itself, both in bytes from 0.
#[derive(Clone, Copy, Debug)]
pub struct OffsetField {
    pub at: u64,
    pub offset: u64,
}

/// Where a blob stands, and its length in bytes.
#[derive(Clone, Copy, Debug)]
pub struct Entry {
    pub place: OffsetField,
    pub length: u64,
}

#[tactic(auto, unfolding(crate::specs::Entries::offset_at))]
fn read_offset(cursor: &mut Cursor<'_>, width: Width) -> Result<OffsetField, MetaFault>
    ensures { Reads (λ h. h) cursor.old cursor.new result (offset_at width cursor.old.bytes cursor.old.at) }
{
    let at = cursor.at() as u64;
    let offset = match width {
        Width::Four => u64::from(cursor.u32_le()?),
        Width::Eight => cursor.u64_le()?,
    };
    Ok(OffsetField { at, offset })
}

pub fn read_offsets(
    alloc: Global,
    cursor: &mut Cursor<'_>,
    width: Width,
    count: u64,
) -> Result<Vec<OffsetField>, MetaFault>
    ensures { Reads (λ v. v.items) cursor.old cursor.new result (many (offset_at width cursor.old.bytes) count cursor.old.at) }
{
    let mut places = Vec::new(alloc);
    for _ in 0..count {
        let place = read_offset(cursor, width)?;
        places.push(place)?;
    }
    Ok(places)
}

#[tactic(auto, unfolding(crate::specs::Entries::length_at))]
fn read_length(cursor: &mut Cursor<'_>, place: OffsetField) -> Result<Entry, MetaFault>
    ensures { Reads (λ h. h) cursor.old cursor.new result (length_at cursor.old.bytes place cursor.old.at) }
{
    let length = cursor.u64_le()?;
    Ok(Entry { place, length })
}

fn read_lengths(
    alloc: Global,
    cursor: &mut Cursor<'_>,
    places: &[OffsetField],
) -> Result<Vec<Entry>, MetaFault>
    ensures { Reads (λ v. v.items) cursor.old cursor.new result (each (length_at cursor.old.bytes) places.now cursor.old.at) }
{
    let mut entries = Vec::new(alloc);
    for place in places {
        let entry = read_length(cursor, *place)?;
        entries.push(entry)?;
    }
    Ok(entries)
}

#[tactic(auto, unfolding(crate::specs::Entries::entries_at))]
pub fn read_entries(
    alloc: Global,
    cursor: &mut Cursor<'_>,
    count: u64,
) -> Result<Vec<Entry>, MetaFault>
    ensures { Reads (λ v. v.items) cursor.old cursor.new result (entries_at count cursor.old.bytes cursor.old.at) }
{
    let places = read_offsets(alloc, cursor, Width::Eight, count)?;
    read_lengths(alloc, cursor, &places)
}
