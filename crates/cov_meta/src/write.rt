//! Whole meta files, as they are written.
ghost use Rattle.std.specs.Prelude.{◌≡◌, ◌≤◌, ◌++◌, length, map, All, OnOk, IfOk};
ghost use Rattle.std.specs.List.{concat};
ghost use Rattle.cov_meta.specs.Spelling.{mode_number};
ghost use Rattle.cov_meta.specs.Hash.{blob_hash, meta_hash};
ghost use Rattle.cov_meta.specs.Written.{KeepsLimits, NumbersFit, UnitsFit, blob_text, file_head, meta_text};
ghost use Rattle.cov_meta.specs.Parts.{PackageFits};

use crate::hash::{hash_blobs, hash_file};
use crate::meta::{Meta, MetaPackage};
use crate::offsets::{push_numbers, push_offsets};
use crate::written_blob::push_blob;
use cov_bytes::Bytes;
use cov_outside::{Mode, NoMemory};
use std::alloc::Global;

/// A meta file that was made: its hash, and its bytes, in which that hash stands.
#[derive(Debug, Drop)]
pub struct Written {
    pub hash: [u8; 16],
    pub bytes: Vec<u8>,
}

/// The meta file of a value that keeps the limits on packages, functions, units and texts. The
/// texts of a package are numbered by their first use; records and blobs follow each other in
/// order. The file may pass the limit on a file's bytes.
pub fn write_meta(alloc: Global, meta: &Meta) -> Result<Written, NoMemory>
    requires { KeepsLimits meta.now }
    ensures hash { IfOk result (λ written. written.hash ≡ meta_hash meta.now) }
    ensures bytes { IfOk result (λ written. written.bytes.items ≡ meta_text meta.now) }
    // With this the law of `written_laws` says that the bytes spell the value.
    ensures fits { OnOk result (NumbersFit meta.now) }
{
    let packages = meta.packages.as_slice();
    let hashes = hash_blobs(alloc, packages)?;
    let hash = hash_file(meta.mode, &hashes);
    let blobs = write_blobs(alloc, packages, &hashes)?;
    let count = packages.len() as u64;
    let start = 58 + 16 * count;
    let mut bytes = Bytes::new(alloc);
    push_file_head(
        &mut bytes,
        start + blobs.bytes.len() as u64,
        count,
        &hash,
        meta.mode,
    )?;
    push_offsets(&mut bytes, start, &blobs.lengths)?;
    push_numbers(&mut bytes, &blobs.lengths)?;
    // The file's own string table has one text, the empty one.
    bytes.push(&[1, 0])?;
    bytes.push(blobs.bytes.as_slice())?;
    Ok(Written {
        hash,
        bytes: bytes.into_vec(),
    })
}

/// Blobs one after the other, and how many bytes each has.
#[derive(Drop)]
pub struct Blobs {
    pub bytes: Bytes,
    pub lengths: Vec<u64>,
}

/// The blobs of packages with these hashes.
fn write_blobs(
    alloc: Global,
    packages: &[MetaPackage],
    hashes: &[[u8; 16]],
) -> Result<Blobs, NoMemory>
    requires fits { All PackageFits packages.now }
    requires hashes { hashes.now ≡ map blob_hash packages.now }
    ensures bytes { IfOk result (λ blobs. blobs.bytes ≡ concat (map blob_text packages.now)) }
    ensures lengths { IfOk result
        (λ blobs. blobs.lengths.items ≡ map length (map blob_text packages.now)) }
    ensures fits { OnOk result (All (λ p. All UnitsFit p.functions) packages.now) }
{
    let mut bytes = Bytes::new(alloc);
    let mut lengths = Vec::new(alloc);
    for (i, package) in packages.iter().enumerate() {
        let start = bytes.len();
        push_blob(alloc, &mut bytes, package, &hashes[i])?;
        lengths.push((bytes.len() - start) as u64)?;
    }
    Ok(Blobs { bytes, lengths })
}

/// The first 56 bytes of a file: among them its size, how many packages it has, and its hash.
fn push_file_head(
    bytes: &mut Bytes,
    size: u64,
    packages: u64,
    hash: &[u8; 16],
    mode: Mode,
) -> Result<(), NoMemory>
    requires { packages ≤ 1000 }
    ensures { OnOk result (bytes.new ≡ bytes.old ++ file_head size packages hash.now mode) }
{
    bytes.push(&[0x00, 0x63, 0x76, 0x6d])?;
    bytes.push_u32(1)?;
    bytes.push_u64(size)?;
    bytes.push_u64(packages)?;
    bytes.push(hash)?;
    bytes.push_u32(56 + 16 * packages as u32)?;
    bytes.push_u32(2)?;
    bytes.push(&[number_of(mode), 1])?;
    bytes.push(&[0; 6])?;
    Ok(())
}

fn number_of(mode: Mode) -> u8
    ensures { result ≡ mode_number mode }
{
    match mode {
        Mode::Set => 1,
        Mode::Count => 2,
        Mode::Atomic => 3,
    }
}

#[cfg(test)]
mod tests;
