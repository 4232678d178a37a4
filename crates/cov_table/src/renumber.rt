//! The rows of another table, by the numbers that its texts have here.
ghost use Rattle.std.specs.Prelude.{◌≡◌, length, map, slice_index_or, IfOk};
ghost use Rattle.cov_table.specs.Rows.{Extends, NamesAll, AllWithin, AllPackagesWithin, Means, row_entry, package_entry, renumbered_row, renumbered_package};

use crate::gather::{Gathered, intern};
use crate::order::text_of;
use crate::row::{PackageRow, Row};
use cov_bytes::StringTable;
use cov_outside::NoMemory;
use std::alloc::{AllocError, Global};

/// The numbers in a pool of the texts of another.
fn numbers_of(
    alloc: Global,
    texts: &mut StringTable,
    from: &StringTable,
) -> Result<Vec<u32>, NoMemory>
    ensures kept { Extends texts.old texts.new }
    ensures named { IfOk result (λ v. NamesAll texts.new v.items from.now) }
{
    let mut numbers = Vec::new(alloc);
    for i in 0..from.len() {
        let Ok(i) = u32::try_from(i) else {
            return Err(AllocError);
        };
        numbers.push(intern(texts, text_of(from, i))?)?;
    }
    Ok(numbers)
}

fn number_at(numbers: &[u32], i: u32) -> u32
    ensures { result ≡ slice_index_or numbers.now i 0 }
{
    match numbers.get(i as usize) {
        Some(number) => *number,
        None => 0,
    }
}

fn renumber(numbers: &[u32], row: &Row) -> Row
    ensures { result ≡ renumbered_row numbers.now row.now }
{
    Row {
        package_path: number_at(numbers, row.package_path),
        file: number_at(numbers, row.file),
        function: number_at(numbers, row.function),
        ..*row
    }
}

fn renumber_package(numbers: &[u32], row: &PackageRow) -> PackageRow
    ensures { result ≡ renumbered_package numbers.now row.now }
{
    PackageRow {
        path: number_at(numbers, row.path),
        name: number_at(numbers, row.name),
        module: number_at(numbers, row.module),
    }
}

fn renumber_all(alloc: Global, numbers: &[u32], rows: &[Row]) -> Result<Vec<Row>, NoMemory>
    ensures { IfOk result (λ v. v.items ≡ map (renumbered_row numbers.now) rows.now) }
{
    rows.iter().map(|row| renumber(numbers, row)).collect(alloc)
}

fn renumber_packages(
    alloc: Global,
    numbers: &[u32],
    rows: &[PackageRow],
) -> Result<Vec<PackageRow>, NoMemory>
    ensures { IfOk result (λ v. v.items ≡ map (renumbered_package numbers.now) rows.now) }
{
    rows.iter()
        .map(|row| renumber_package(numbers, row))
        .collect(alloc)
}

/// The rows of another table, whose texts are added.
pub fn gather_rows(
    alloc: Global,
    texts: &mut StringTable,
    from: &StringTable,
    rows: &[Row],
    packages: &[PackageRow],
) -> Result<Gathered, NoMemory>
    requires rows_within { AllWithin (length from.now) rows.now }
    requires packages_within { AllPackagesWithin (length from.now) packages.now }
    ensures kept { Extends texts.old texts.new }
    ensures added { IfOk result (λ g. Means texts.new g.rows.items g.packages.items (map (row_entry from.now) rows.now) (map (package_entry from.now) packages.now)) }
{
    let numbers = numbers_of(alloc, texts, from)?;
    Ok(Gathered {
        rows: renumber_all(alloc, &numbers, rows)?,
        packages: renumber_packages(alloc, &numbers, packages)?,
    })
}
