//! The rows of a pod.
ghost use Rattle.std.specs.Prelude.{◌≡◌, ◌++◌, OnOk, IfOk, map};
ghost use Rattle.cov_table.specs.Rows.{Extends, Names, Adds, AddsPackages, Means, unit_rows};
ghost use Rattle.cov_table.specs.Coverage.{package_counts, counts_of, package_of};

use crate::row::{PackageRow, Row};
use cov_bytes::StringTable;
use cov_meta::{MetaFunction, MetaPackage};
use cov_outside::{Mode, NoMemory, Sequence};
use cov_pods::DecodedPod;
use std::alloc::{AllocError, Global};

/// The number of a text in the pool.
pub fn intern(texts: &mut StringTable, text: &[u8]) -> Result<u32, NoMemory>
    ensures kept { Extends texts.old texts.new }
    ensures found { IfOk result (λ i. Names texts.new i text.now) }
{
    if texts.len() >= u32::MAX as usize {
        return Err(AllocError);
    }
    texts.intern(text)
}

/// Adds the units of a function, with a count for each.
fn add_units(
    rows: &mut Vec<Row>,
    package_path: u32,
    file: u32,
    function: u32,
    from: &MetaFunction,
    counts: &[u32],
) -> Result<(), NoMemory>
    ensures { OnOk result (rows.new.items ≡ rows.old.items ++ unit_rows package_path file function from.now counts.now) }
{
    for (unit, count) in from.units.as_slice().iter().zip(counts) {
        rows.push(Row {
            package_path,
            file,
            function,
            literal: from.literal,
            start_line: unit.start.line,
            start_column: unit.start.column,
            end_line: unit.end.line,
            end_column: unit.end.column,
            statements: unit.statements,
            count: *count,
        })?;
    }
    Ok(())
}

/// Adds the units of a package's functions. A function's texts are looked up once.
fn add_functions(
    texts: &mut StringTable,
    rows: &mut Vec<Row>,
    from: &MetaPackage,
    counts: &[Sequence<u32>],
) -> Result<(), NoMemory>
    ensures kept { Extends texts.old texts.new }
    ensures added { OnOk result (Adds texts.old texts.new rows.old.items rows.new.items (package_counts from.now counts.now)) }
{
    let package_path = intern(texts, from.path.bytes())?;
    for (function, counts) in from.functions.as_slice().iter().zip(counts) {
        let file = intern(texts, function.file.bytes())?;
        let name = intern(texts, function.name.bytes())?;
        add_units(rows, package_path, file, name, function, counts.as_slice())?;
    }
    Ok(())
}

/// Adds the units of packages.
pub fn add_counts(
    texts: &mut StringTable,
    rows: &mut Vec<Row>,
    packages: &[MetaPackage],
    counts: &[Sequence<Sequence<u32>>],
) -> Result<(), NoMemory>
    ensures kept { Extends texts.old texts.new }
    ensures added { OnOk result (Adds texts.old texts.new rows.old.items rows.new.items (counts_of packages.now counts.now)) }
{
    for (package, counts) in packages.iter().zip(counts) {
        add_functions(texts, rows, package, counts.as_slice())?;
    }
    Ok(())
}

/// Adds the texts of packages.
pub fn add_packages(
    texts: &mut StringTable,
    rows: &mut Vec<PackageRow>,
    packages: &[MetaPackage],
) -> Result<(), NoMemory>
    ensures kept { Extends texts.old texts.new }
    ensures added { OnOk result (AddsPackages texts.old texts.new rows.old.items rows.new.items (map package_of packages.now)) }
{
    for package in packages {
        let path = intern(texts, package.path.bytes())?;
        let name = intern(texts, package.name.bytes())?;
        let module = intern(texts, package.module.bytes())?;
        rows.push(PackageRow { path, name, module })?;
    }
    Ok(())
}

/// Rows that a table takes.
#[derive(Debug, Drop)]
pub struct Gathered {
    pub rows: Vec<Row>,
    pub packages: Vec<PackageRow>,
}

/// The mode of a pod.
pub fn mode_of(pod: &DecodedPod) -> Mode
    ensures { result ≡ pod.now.file.meta.mode }
{
    pod.file.meta.mode
}

fn packages_in(pod: &DecodedPod) -> &[MetaPackage]
    ensures { result.now ≡ pod.now.file.meta.packages }
{
    pod.file.meta.packages.as_slice()
}

fn counts_in(pod: &DecodedPod) -> &[Sequence<Sequence<u32>>]
    ensures { result.now ≡ pod.now.counts }
{
    pod.counts.as_slice()
}

/// The rows of a pod.
pub fn gather_pod(
    alloc: Global,
    texts: &mut StringTable,
    pod: &DecodedPod,
) -> Result<Gathered, NoMemory>
    ensures kept { Extends texts.old texts.new }
    ensures added { IfOk result (λ g. Means texts.new g.rows.items g.packages.items (counts_of pod.now.file.meta.packages pod.now.counts) (map package_of pod.now.file.meta.packages)) }
{
    let mut rows = Vec::new(alloc);
    let mut packages = Vec::new(alloc);
    let from = packages_in(pod);
    add_counts(texts, &mut rows, from, counts_in(pod))?;
    add_packages(texts, &mut packages, from)?;
    Ok(Gathered { rows, packages })
}
