//! The rows of each function.
ghost use Rattle.std.specs.Prelude.{◌≡◌, ℕ, List, ◌++◌, ◌∷◌, [], map, OnOk, IfOk};
ghost use Rattle.cov_table.specs.Key.{Key};
ghost use Rattle.cov_table.specs.Functions.{groups_of};
ghost use Rattle.cov_table.specs.Rows.{row_key, row_entry};
ghost use Rattle.cov_table.specs.Grouping.{function_of, named_function, group_entry, AreNames, Grouped};

use crate::order::text_of;
use crate::row::Row;
use cov_bytes::StringTable;
use cov_outside::NoMemory;
use indexmap::IndexSet;
use std::alloc::Global;

/// What a function is known by.
#[derive(Clone, Copy, Debug, PartialEq, Eq, Hash)]
pub struct FunctionName<'a> {
    pub package_path: &'a [u8],
    pub file: &'a [u8],
    pub function: &'a [u8],
    pub literal: bool,
}

/// The first row of a function, and all in order.
#[derive(Debug, Drop)]
pub struct Group {
    pub first: Row,
    pub rows: Vec<Row>,
}

/// The function that a row is of.
fn name_of<'a>(texts: &'a StringTable, row: &Row) -> FunctionName<'a>
    ensures { named_function result ≡ function_of (row_key texts.now row.now) }
{
    FunctionName {
        package_path: text_of(texts, row.package_path),
        file: text_of(texts, row.file),
        function: text_of(texts, row.function),
        literal: row.literal,
    }
}

/// Adds a row to the group of its function, which may be a new one.
fn add_row<'a>(
    alloc: Global,
    texts: &'a StringTable,
    names: &mut IndexSet<FunctionName<'a>>,
    groups: &mut Vec<Group>,
    row: &Row,
) -> Result<(), NoMemory>
    requires { AreNames names.old.keys groups.old.items }
    ensures { OnOk result ((units : List (Key × ℕ)) → Grouped texts.now names.old.keys groups.old.items units → Grouped texts.now names.new.keys groups.new.items (units ++ row_entry texts.now row.now ∷ [])) }
{
    let (i, is_new) = names.insert_full(name_of(texts, row))?;
    if is_new {
        groups.push(Group {
            first: *row,
            rows: Vec::new(alloc),
        })?;
    }
    groups[i].rows.push(*row)?;
    Ok(())
}

/// The rows of each function in order, in the order of their first rows.
pub fn group_rows(alloc: Global, texts: &StringTable, rows: &[Row]) -> Result<Vec<Group>, NoMemory>
    ensures { IfOk result (λ v. map (group_entry texts.now) v.items ≡ groups_of (map (row_entry texts.now) rows.now)) }
{
    let mut names = IndexSet::new(alloc);
    let mut groups = Vec::new(alloc);
    for row in rows {
        add_row(alloc, texts, &mut names, &mut groups, row)?;
    }
    Ok(groups)
}
