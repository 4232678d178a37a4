//! The hashes of a meta file: MD5 over its texts and numbers.
ghost use Rattle.std.specs.Prelude.{◌≡◌, ◌++◌, map, flat_map, codes, IfOk};
ghost use Rattle.std.specs.List.{concat};
ghost use Rattle.byteorder.specs.Endian.{little_bytes};
ghost use Rattle.md5.specs.Md5.{md5};
ghost use Rattle.cov_meta.specs.Spelling.{unit_numbers};
ghost use Rattle.cov_meta.specs.Hash.{Takes, function_message, blob_hash, mode_name};

use crate::meta::{MetaFunction, MetaPackage, MetaUnit};
use cov_outside::{Mode, NoMemory};
use md5::{Digest, Md5};
use std::alloc::Global;

/// The hashes of the packages' blobs.
pub fn hash_blobs(alloc: Global, packages: &[MetaPackage]) -> Result<Vec<[u8; 16]>, NoMemory>
    ensures { IfOk result (λ hashes. hashes.items ≡ map blob_hash packages.now) }
{
    let mut hashes = Vec::new(alloc);
    for package in packages {
        hashes.push(hash_blob(package))?;
    }
    Ok(hashes)
}

/// The hash of the file: the blobs' hashes, the mode and the granularity.
pub fn hash_file(mode: Mode, blobs: &[[u8; 16]]) -> [u8; 16]
    ensures { result ≡ md5 (concat blobs.now ++ mode_name mode ++ codes "perblock") }
{
    let mut hasher = Md5::new();
    take_hashes(&mut hasher, blobs);
    hasher.update(match mode {
        Mode::Set => b"set".as_slice(),
        Mode::Count => b"count".as_slice(),
        Mode::Atomic => b"atomic".as_slice(),
    });
    hasher.update(b"perblock");
    hasher.finalize()
}

fn take_hashes(hasher: &mut Md5, hashes: &[[u8; 16]])
    ensures { Takes hasher.old hasher.new (concat hashes.now) }
{
    for hash in hashes {
        hasher.update(hash.as_slice());
    }
}

/// The hash of a package's blob.
fn hash_blob(package: &MetaPackage) -> [u8; 16]
    ensures { result ≡ blob_hash «package».now }
{
    let mut hasher = Md5::new();
    hasher.update(package.path.bytes());
    hasher.update(package.name.bytes());
    hasher.update(package.module.bytes());
    take_functions(&mut hasher, package.functions.as_slice());
    hasher.finalize()
}

fn take_functions(hasher: &mut Md5, functions: &[MetaFunction])
    ensures { Takes hasher.old hasher.new (flat_map function_message functions.now) }
{
    for function in functions {
        take_function(hasher, function);
    }
}

fn take_function(hasher: &mut Md5, function: &MetaFunction)
    ensures { Takes hasher.old hasher.new (function_message function.now) }
{
    hasher.update(function.name.bytes());
    hasher.update(function.file.bytes());
    take_units(hasher, function.units.as_slice());
    take_number(hasher, u32::from(function.literal));
}

fn take_units(hasher: &mut Md5, units: &[MetaUnit])
    ensures { Takes hasher.old hasher.new (flat_map (little_bytes 4) (flat_map unit_numbers units.now)) }
{
    for unit in units {
        take_unit(hasher, unit);
    }
}

fn take_unit(hasher: &mut Md5, unit: &MetaUnit)
    ensures { Takes hasher.old hasher.new (flat_map (little_bytes 4) (unit_numbers unit.now)) }
{
    take_number(hasher, unit.start.line);
    take_number(hasher, unit.start.column);
    take_number(hasher, unit.end.line);
    take_number(hasher, unit.end.column);
    take_number(hasher, unit.statements);
}

/// A number goes in as its 4 bytes, the lowest first.
fn take_number(hasher: &mut Md5, n: u32)
    ensures { Takes hasher.old hasher.new (little_bytes 4 n) }
{
    hasher.update(n.to_le_bytes().as_slice());
}
