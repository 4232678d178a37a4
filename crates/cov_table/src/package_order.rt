//! Sorting packages by their paths and keeping the first of each.
ghost use Rattle.std.specs.Prelude.{◌≡◌, ◌≤◌, ◌/◌, ℕ, map, OnOk, IfOk, vec_len};
ghost use Rattle.std.specs.List.Sorted.{IsSortedByKey};
ghost use Rattle.std.specs.FinMap as finmap;
ghost use Rattle.cov_table.specs.Key.{text_cmp};
ghost use Rattle.cov_table.specs.Rows.{AllPackagesWithin, packages_in, package_entry, package_path};

use crate::order::compare_texts;
use crate::row::PackageRow;
use cov_bytes::StringTable;
use cov_outside::NoMemory;
use std::alloc::Global;
use std::cmp::Ordering;

/// Sorts packages by their paths. Those of one path stay in their order.
pub fn sort_packages(texts: &StringTable, rows: &mut Vec<PackageRow>) -> Result<(), NoMemory>
    ensures same { packages_in texts.now rows.new.items ≡ packages_in texts.now rows.old.items }
    ensures within { (n : ℕ) → AllPackagesWithin n rows.old.items → AllPackagesWithin n rows.new.items }
    ensures sorted { OnOk result (IsSortedByKey (package_path texts.now) text_cmp rows.new.items) }
{
    rows.sort_by(|a: &PackageRow, b: &PackageRow| compare_texts(texts, a.path, b.path))?;
    Ok(())
}

/// The first package of each path, from packages in order.
pub fn first_packages(
    alloc: Global,
    texts: &StringTable,
    rows: &[PackageRow],
) -> Result<Vec<PackageRow>, NoMemory>
    requires { IsSortedByKey (package_path texts.now) text_cmp rows.now }
    ensures same { IfOk result (λ v. packages_in texts.now v.items ≡ packages_in texts.now rows.now) }
    ensures within { IfOk result (λ v. (n : ℕ) → AllPackagesWithin n rows.now → AllPackagesWithin n v.items) }
    ensures entries { IfOk result (λ v. map (package_entry texts.now) v.items ≡ finmap.entries (packages_in texts.now rows.now)) }
{
    let mut firsts = Vec::new(alloc);
    let [first, rest @ ..] = rows else {
        return Ok(firsts);
    };
    let mut held = *first;
    for row in rest {
        if compare_texts(texts, held.path, row.path) != Ordering::Equal {
            firsts.push(held)?;
            held = *row;
        }
    }
    firsts.push(held)?;
    Ok(firsts)
}

/// The first package of each path, in the order of the paths.
pub fn packages_in_order(
    alloc: Global,
    texts: &StringTable,
    rows: &[PackageRow],
) -> Result<Vec<PackageRow>, NoMemory>
    ensures { IfOk result (λ v. map (package_entry texts.now) v.items ≡ finmap.entries (packages_in texts.now rows.now)) }
{
    let mut rows = Vec::from_slice(alloc, rows)?;
    sort_packages(texts, &mut rows)?;
    first_packages(alloc, texts, &rows)
}

/// Keeps the first of each where those added since the last time outnumber the others.
pub fn settle_packages(
    alloc: Global,
    texts: &StringTable,
    rows: &mut Vec<PackageRow>,
    settled: &mut usize,
) -> Result<(), NoMemory>
    ensures same { packages_in texts.now rows.new.items ≡ packages_in texts.now rows.old.items }
    ensures within { (n : ℕ) → AllPackagesWithin n rows.old.items → AllPackagesWithin n rows.new.items }
    ensures few { OnOk result (vec_len rows.new / 2 ≤ settled.new) }
{
    if rows.len() / 2 <= *settled {
        return Ok(());
    }
    sort_packages(texts, rows)?;
    *rows = first_packages(alloc, texts, rows)?;
    *settled = rows.len();
    Ok(())
}
