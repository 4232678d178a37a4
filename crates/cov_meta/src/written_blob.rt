//! A package's blob, as it is written.
ghost use Rattle.std.specs.Prelude.{◌≡◌, ◌≤◌, ◌++◌, [], ◌∷◌, length, All, OnOk, IfOk};
ghost use Rattle.cov_meta.specs.Hash.{blob_hash};
ghost use Rattle.cov_meta.specs.Written.{UnitsFit, with_texts, blob_head, blob_text};
ghost use Rattle.cov_meta.specs.Parts.{NumbersAre, PartsAre, PackageFits};

use crate::blob::TextNumbers;
use crate::meta::MetaPackage;
use crate::offsets::push_short_offsets;
use crate::record::{Records, write_records};
use cov_bytes::{Bytes, StringTable};
use cov_outside::NoMemory;
use std::alloc::Global;

/// What stands in a blob behind its head, and what the head says of it.
#[derive(Drop)]
pub struct BlobParts {
    pub numbers: TextNumbers,
    /// How many texts the table has.
    pub count: u32,
    /// The string table.
    pub table: Vec<u8>,
    pub records: Records,
}

/// Appends the blob of a package with this hash.
pub fn push_blob(
    alloc: Global,
    bytes: &mut Bytes,
    package: &MetaPackage,
    hash: &[u8; 16],
) -> Result<(), NoMemory>
    requires fits { PackageFits «package».now }
    requires hash { hash.now ≡ blob_hash «package».now }
    ensures bytes { OnOk result (bytes.new ≡ bytes.old ++ blob_text «package».now) }
    ensures fits { OnOk result (All UnitsFit «package».now.functions) }
{
    let functions = package.functions.len();
    let parts = blob_parts(alloc, package)?;
    let start = 44 + 4 * functions + parts.table.len();
    let size = start + parts.records.bytes.len();
    push_head(bytes, size as u32, &parts, hash, functions as u32)?;
    push_short_offsets(bytes, start as u32, &parts.records.lengths)?;
    bytes.push(&parts.table)?;
    bytes.push(parts.records.bytes.as_slice())?;
    Ok(())
}

fn blob_parts(alloc: Global, package: &MetaPackage) -> Result<BlobParts, NoMemory>
    requires { PackageFits «package».now }
    ensures { IfOk result (λ parts. PartsAre parts «package».now) }
{
    let mut texts = StringTable::new(alloc);
    let numbers = number_names(&mut texts, package)?;
    let records = write_records(alloc, &mut texts, package.functions.as_slice())?;
    let count = texts.len() as u32;
    let table = texts.write(alloc)?;
    Ok(BlobParts {
        numbers,
        count,
        table,
        records,
    })
}

/// The numbers of a package's own texts, the first in its table.
fn number_names(table: &mut StringTable, package: &MetaPackage) -> Result<TextNumbers, NoMemory>
    requires { table.old ≡ [] }
    ensures texts { let p = «package».now in
        OnOk result (table.new ≡ with_texts [] (p.name ∷ p.path ∷ p.«module» ∷ [])) }
    ensures few { OnOk result (length table.new ≤ 3) }
    ensures numbers { IfOk result (λ n. NumbersAre table.new n «package».now) }
{
    let name = table.intern(package.name.bytes())?;
    let path = table.intern(package.path.bytes())?;
    let module = table.intern(package.module.bytes())?;
    Ok(TextNumbers { name, path, module })
}

/// The first 44 bytes of a blob: its size, the numbers of its names, its hash, and how many texts
/// and functions it has.
fn push_head(
    bytes: &mut Bytes,
    size: u32,
    parts: &BlobParts,
    hash: &[u8; 16],
    functions: u32,
) -> Result<(), NoMemory>
    ensures { OnOk result (bytes.new
        ≡ bytes.old ++ blob_head size parts.now.numbers hash.now parts.now.count functions) }
{
    bytes.push_u32(size)?;
    bytes.push_u32(parts.numbers.name)?;
    bytes.push_u32(parts.numbers.path)?;
    bytes.push_u32(parts.numbers.module)?;
    bytes.push(hash)?;
    bytes.push(&[0; 4])?;
    bytes.push_u32(parts.count)?;
    bytes.push_u32(functions)?;
    Ok(())
}
