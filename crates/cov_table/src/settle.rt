//! Sorting rows by their units and combining those of one unit.
ghost use Rattle.std.specs.Prelude.{◌≡◌, ◌≤◌, ◌/◌, ℕ, [], map, OnOk, IfOk, vec_len};
ghost use Rattle.std.specs.List.Sorted.{IsSortedByKey};
ghost use Rattle.std.specs.FinMap as finmap;
ghost use Rattle.cov_outside.specs.Mode.{combined, greatest};
ghost use Rattle.cov_table.specs.Key.{key_cmp};
ghost use Rattle.cov_table.specs.Rows.{AllWithin, counts_up_to, greatest_of, row_entry, row_key};

use crate::order::compare;
use crate::row::Row;
use cov_bytes::StringTable;
use cov_outside::{Mode, NoMemory};
use std::alloc::Global;
use std::cmp::Ordering;

/// Sorts rows by their units.
pub fn sort(texts: &StringTable, rows: &mut Vec<Row>) -> Result<(), NoMemory>
    ensures same { (most : ℕ) → counts_up_to most texts.now rows.new.items ≡ counts_up_to most texts.now rows.old.items }
    ensures within { (n : ℕ) → AllWithin n rows.old.items → AllWithin n rows.new.items }
    ensures sorted { OnOk result (IsSortedByKey (row_key texts.now) key_cmp rows.new.items) }
{
    rows.sort_by(|a: &Row, b: &Row| compare(texts, a, b))?;
    Ok(())
}

/// The row with a count that stops at the greatest of the mode.
fn capped(mode: Mode, row: &Row) -> Row
    ensures { result ≡ record row.now { count = combined mode 0 row.now.count } }
{
    Row {
        count: mode.combine(0, row.count),
        ..*row
    }
}

/// Rows in order, with one for each unit.
pub fn combine(
    alloc: Global,
    mode: Mode,
    texts: &StringTable,
    rows: &[Row],
) -> Result<Vec<Row>, NoMemory>
    requires { IsSortedByKey (row_key texts.now) key_cmp rows.now }
    ensures same { IfOk result (λ v. counts_up_to (greatest mode) texts.now v.items ≡ counts_up_to (greatest mode) texts.now rows.now) }
    ensures within { IfOk result (λ v. (n : ℕ) → AllWithin n rows.now → AllWithin n v.items) }
    ensures entries { IfOk result (λ v. map (row_entry texts.now) v.items ≡ finmap.entries (counts_up_to (greatest mode) texts.now rows.now)) }
{
    let mut settled = Vec::with_capacity(alloc, rows.len())?;
    let [first, rest @ ..] = rows else {
        return Ok(settled);
    };
    let mut held = capped(mode, first);
    for row in rest {
        if compare(texts, &held, row) == Ordering::Equal {
            held.count = mode.combine(held.count, row.count);
        } else {
            settled.push(held)?;
            held = capped(mode, row);
        }
    }
    settled.push(held)?;
    Ok(settled)
}

/// The rows of a table in order, with one for each unit.
pub fn rows_in_order(
    alloc: Global,
    mode: Option<Mode>,
    texts: &StringTable,
    rows: &[Row],
) -> Result<Vec<Row>, NoMemory>
    requires { mode ≡ None → rows.now ≡ [] }
    ensures within { IfOk result (λ v. (n : ℕ) → AllWithin n rows.now → AllWithin n v.items) }
    ensures entries { IfOk result (λ v. map (row_entry texts.now) v.items ≡ finmap.entries (counts_up_to (greatest_of mode) texts.now rows.now)) }
{
    let Some(mode) = mode else {
        return Ok(Vec::new(alloc));
    };
    let mut rows = Vec::from_slice(alloc, rows)?;
    sort(texts, &mut rows)?;
    combine(alloc, mode, texts, &rows)
}

/// Combines rows where those added since the last time outnumber the others.
pub fn settle(
    alloc: Global,
    mode: Mode,
    texts: &StringTable,
    rows: &mut Vec<Row>,
    settled: &mut usize,
) -> Result<(), NoMemory>
    ensures same { counts_up_to (greatest mode) texts.now rows.new.items ≡ counts_up_to (greatest mode) texts.now rows.old.items }
    ensures within { (n : ℕ) → AllWithin n rows.old.items → AllWithin n rows.new.items }
    ensures few { OnOk result (vec_len rows.new / 2 ≤ settled.new) }
{
    if rows.len() / 2 <= *settled {
        return Ok(());
    }
    sort(texts, rows)?;
    *rows = combine(alloc, mode, texts, rows)?;
    *settled = rows.len();
    Ok(())
}
