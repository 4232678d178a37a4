//! Whole meta files.
ghost use Rattle.cov_meta.specs.Fault.{Answers};
ghost use Rattle.cov_meta.specs.File.{package_at, packages_at, file_at, meta_of};

use crate::allowance::{Allowance, MAX_FILE_BYTES};
use crate::blob::read_blob;
use crate::entries::{Entry, read_entries};
use crate::fault::MetaFault;
use crate::header::read_header;
use crate::meta::{Meta, MetaFile, MetaPackage};
use cov_bytes::Cursor;
use cov_outside::{DataKind, Sequence, Which};
use std::alloc::Global;

#[tactic(auto, unfolding(crate::specs::File::package_at))]
fn read_package(
    alloc: Global,
    bytes: &[u8],
    entry: Entry,
    left: Allowance,
) -> Result<(MetaPackage, Allowance), MetaFault>
    ensures { Answers result (package_at bytes.now entry left) }
{
    let end = u128::from(entry.place.offset) + u128::from(entry.length);
    if end > bytes.len() as u128 {
        return Err(MetaFault::At {
            offset: entry.place.at,
            kind: DataKind::BadRange,
        });
    }
    read_blob(
        alloc,
        &bytes[..end as usize],
        entry.place.offset as usize,
        left,
    )
}

#[tactic(auto, unfolding(crate::specs::File::packages_at))]
fn read_packages(
    alloc: Global,
    bytes: &[u8],
    entries: &[Entry],
) -> Result<Sequence<MetaPackage>, MetaFault>
    ensures { Answers result (packages_at bytes.now entries.now) }
{
    let mut packages = Sequence::new(alloc);
    let mut left = Allowance::WHOLE;
    for entry in entries {
        let (package, behind) = read_package(alloc, bytes, *entry, left)?;
        packages.push(package)?;
        left = behind;
    }
    Ok(packages)
}

#[tactic(auto, unfolding(crate::specs::File::file_at))]
fn read_file(alloc: Global, bytes: &[u8]) -> Result<MetaFile, MetaFault>
    ensures { Answers result (file_at bytes.now) }
{
    let mut cursor = Cursor::new(bytes);
    let header = read_header(&mut cursor)?;
    let entries = read_entries(alloc, &mut cursor, header.entries)?;
    let packages = read_packages(alloc, bytes, &entries)?;
    let hash = header.hash;
    let mode = header.mode;
    Ok(MetaFile {
        hash,
        meta: Meta { mode, packages },
    })
}

/// What a meta file says, or its first fault in the order of reading: the file's size, the header,
/// all offsets of blobs, all their lengths, then package by package the blob's range, its header,
/// its function offsets, its string table, its names and its function records. A limit is met where
/// the number that passes it is read.
#[tactic(auto, unfolding(crate::specs::File::meta_of))]
pub fn read_meta(alloc: Global, bytes: &[u8]) -> Result<MetaFile, MetaFault>
    ensures { Answers result (meta_of bytes.now) }
{
    if bytes.len() > MAX_FILE_BYTES {
        return Err(MetaFault::Limit(Which::DataBytes));
    }
    read_file(alloc, bytes)
}

#[cfg(test)]
mod tests;
