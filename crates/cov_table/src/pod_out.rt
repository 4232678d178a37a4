//! The pod that a table makes.
ghost use Rattle.std.specs.Prelude.{◌≡◌, ◌==◌, ◌++◌, [], not, map, OnOk, IfOk};
ghost use Rattle.std.specs.List.{list_any};
ghost use Rattle.cov_table.specs.PodOf.{unit_out, function_out, package_out, entry_out, entries_of};
ghost use Rattle.cov_table.specs.PodRows.{units_at, pod_in_rows};
ghost use Rattle.cov_table.specs.Grouping.{group_entry, row_counts};
ghost use Rattle.cov_table.specs.Rows.{Rises, row_entry, package_entry, text_at};

use crate::group::{Group, group_rows};
use crate::order::{compare_texts, text_of};
use crate::row::{PackageRow, Row};
use cov_bytes::StringTable;
use cov_counter::Entry;
use cov_meta::{Meta, MetaFunction, MetaPackage, MetaUnit, Place2};
use cov_outside::{Mode, NoMemory, Sequence, Text};
use std::alloc::{AllocError, Global};

/// What a meta file and a counter file say that are written for a table.
#[derive(Debug, Drop)]
pub struct PodOut {
    pub meta: Meta,
    /// One for each function with a count that isn't 0, by package and function.
    pub entries: Sequence<Entry>,
}

/// The rows of a package, from rows in order.
fn rows_at<'a>(texts: &StringTable, rows: &'a [Row], path: u32) -> &'a [Row]
    requires { Rises texts.now rows.now }
    ensures { map (row_entry texts.now) result.now ≡ units_at (map (row_entry texts.now) rows.now) (text_at texts.now path) }
{
    let start = rows.partition_point(|row: &Row| compare_texts(
        texts,
        row.package_path,
        path,
    ).is_lt());
    let rest = &rows[start..];
    let len = rest.partition_point(|row: &Row| compare_texts(
        texts,
        row.package_path,
        path,
    ).is_eq());
    &rest[..len]
}

fn unit_from(row: &Row) -> MetaUnit
    ensures { result ≡ unit_out (row_entry [] row.now) }
{
    MetaUnit {
        start: Place2 {
            line: row.start_line,
            column: row.start_column,
        },
        end: Place2 {
            line: row.end_line,
            column: row.end_column,
        },
        statements: row.statements,
    }
}

fn units_from(alloc: Global, rows: &[Row]) -> Result<Vec<MetaUnit>, NoMemory>
    ensures { IfOk result (λ v. v.items ≡ map (λ r. unit_out (row_entry [] r)) rows.now) }
{
    rows.iter().map(unit_from).collect(alloc)
}

fn function_from(
    alloc: Global,
    texts: &StringTable,
    group: &Group,
) -> Result<MetaFunction, NoMemory>
    ensures { IfOk result (λ f. f ≡ function_out (group_entry texts.now group.now)) }
{
    Ok(MetaFunction {
        name: Text::of(alloc, text_of(texts, group.first.function))?,
        file: Text::of(alloc, text_of(texts, group.first.file))?,
        literal: group.first.literal,
        units: Sequence::from_vec(units_from(alloc, &group.rows)?),
    })
}

fn functions_from(
    alloc: Global,
    texts: &StringTable,
    groups: &[Group],
) -> Result<Vec<MetaFunction>, NoMemory>
    ensures { IfOk result (λ v. v.items ≡ map (λ g. function_out (group_entry texts.now g)) groups.now) }
{
    let mut functions = Vec::with_capacity(alloc, groups.len())?;
    for group in groups {
        functions.push(function_from(alloc, texts, group)?)?;
    }
    Ok(functions)
}

fn package_from(
    alloc: Global,
    texts: &StringTable,
    row: &PackageRow,
    groups: &[Group],
) -> Result<MetaPackage, NoMemory>
    ensures { IfOk result (λ p. p ≡ package_out (package_entry texts.now row.now) (map (group_entry texts.now) groups.now)) }
{
    Ok(MetaPackage {
        name: Text::of(alloc, text_of(texts, row.name))?,
        path: Text::of(alloc, text_of(texts, row.path))?,
        module: Text::of(alloc, text_of(texts, row.module))?,
        functions: Sequence::from_vec(functions_from(alloc, texts, groups)?),
    })
}

fn counts_from(alloc: Global, rows: &[Row]) -> Result<Vec<u32>, NoMemory>
    ensures { IfOk result (λ v. v.items ≡ map (λ r. r.count) rows.now) }
{
    rows.iter().map(|row| row.count).collect(alloc)
}

/// Whether a count isn't 0.
fn has_run(counts: &[u32]) -> bool
    ensures { result ≡ list_any (λ n. not (n == 0)) counts.now }
{
    counts.iter().any(|count| *count != 0)
}

/// The number of a package or a function, whose field has 32 bits.
fn number_of(i: usize) -> Result<u32, NoMemory>
    ensures { IfOk result (λ n. n ≡ i) }
{
    match u32::try_from(i) {
        Ok(number) => Ok(number),
        Err(_) => Err(AllocError),
    }
}

/// Adds the entry of a function, if it has a count that isn't 0.
fn push_entry(
    alloc: Global,
    entries: &mut Vec<Entry>,
    package: u32,
    function: u32,
    group: &Group,
) -> Result<(), NoMemory>
    ensures { OnOk result (entries.new.items ≡ entries.old.items ++ entry_out «package» (function, row_counts group.now)) }
{
    let counts = counts_from(alloc, &group.rows)?;
    if has_run(&counts) {
        entries.push(Entry {
            package,
            function,
            counts: Sequence::from_vec(counts),
        })?;
    }
    Ok(())
}

/// Adds the entries of a package's functions.
fn push_entries(
    alloc: Global,
    entries: &mut Vec<Entry>,
    package: u32,
    groups: &[Group],
) -> Result<(), NoMemory>
    ensures { OnOk result (entries.new.items ≡ entries.old.items ++ entries_of («package», map row_counts groups.now)) }
{
    for (i, group) in groups.iter().enumerate() {
        push_entry(alloc, entries, package, number_of(i)?, group)?;
    }
    Ok(())
}

/// The pod of a table's rows in order and its packages.
pub fn pod_from(
    alloc: Global,
    mode: Mode,
    texts: &StringTable,
    rows: &[Row],
    packages: &[PackageRow],
) -> Result<PodOut, NoMemory>
    requires { Rises texts.now rows.now }
    ensures { IfOk result (λ pod. pod ≡ pod_in_rows mode texts.now rows.now packages.now) }
{
    let mut made = Vec::with_capacity(alloc, packages.len())?;
    let mut entries = Vec::new(alloc);
    for (i, package) in packages.iter().enumerate() {
        let groups = group_rows(alloc, texts, rows_at(texts, rows, package.path))?;
        push_entries(alloc, &mut entries, number_of(i)?, &groups)?;
        made.push(package_from(alloc, texts, package, &groups)?)?;
    }
    Ok(PodOut {
        meta: Meta {
            mode,
            packages: Sequence::from_vec(made),
        },
        entries: Sequence::from_vec(entries),
    })
}
