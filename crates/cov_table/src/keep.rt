//! Which counts of a table stay beside those of another.
ghost use Rattle.std.specs.Prelude.{◌≡◌, map, IfOk};
ghost use Rattle.cov_table.specs.Rows.{Rises, row_key};
ghost use Rattle.cov_table.specs.Keeping.{passes, count_among, kept_row};

use crate::order::compare;
use crate::row::Row;
use cov_bytes::StringTable;
use cov_outside::NoMemory;
use std::alloc::Global;

/// Where the first count stays: where the second is 0 or missing, or where it isn't.
#[derive(Clone, Copy, Debug)]
pub enum Keeps {
    WhereZero,
    WhereCounted,
}

impl Keeps {
    fn passes(self, count: u32) -> bool
        ensures { result ≡ passes self count }
    {
        match self {
            Keeps::WhereZero => count == 0,
            Keeps::WhereCounted => count != 0,
        }
    }
}

/// The count of a row's unit among rows in strict order, or 0.
fn count_at(texts: &StringTable, rows: &[Row], row: &Row) -> u32
    requires { Rises texts.now rows.now }
    ensures { result ≡ count_among texts.now rows.now (row_key texts.now row.now) }
{
    match rows.binary_search_by(|other: &Row| compare(texts, other, row)) {
        Ok(i) => rows[i].count,
        Err(_) => 0,
    }
}

/// Rows with the counts that stay, and 0 in the place of the others.
pub fn kept_rows(
    alloc: Global,
    texts: &StringTable,
    rows: &[Row],
    others: &[Row],
    keeps: Keeps,
) -> Result<Vec<Row>, NoMemory>
    requires { Rises texts.now others.now }
    ensures { IfOk result (λ v. v.items ≡ map (kept_row keeps texts.now others.now) rows.now) }
{
    let mut kept = Vec::with_capacity(alloc, rows.len())?;
    for row in rows {
        let count = if keeps.passes(count_at(texts, others, row)) {
            row.count
        } else {
            0
        };
        kept.push(Row { count, ..*row })?;
    }
    Ok(kept)
}
