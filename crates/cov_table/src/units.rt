//! The units of a table in order.
ghost use Rattle.std.specs.Prelude.{◌≡◌, length, slice_get};
ghost use Rattle.std.specs.Option.{option_map};

use crate::order::text_of;
use crate::row::Row;
use cov_bytes::StringTable;
use std::marker::Model;

/// A unit with its count.
#[derive(Clone, Copy, Debug)]
pub struct Unit<'a> {
    pub package_path: &'a [u8],
    pub file: &'a [u8],
    pub function: &'a [u8],
    pub literal: bool,
    pub start_line: u32,
    pub start_column: u32,
    pub end_line: u32,
    pub end_column: u32,
    pub statements: u32,
    pub count: u32,
}

/// The units of a table, in the order of their keys.
#[derive(Debug, Drop)]
pub struct Units<'a> {
    texts: &'a StringTable,
    rows: Vec<Row>,
}

impl<'a> Model for Units<'a> {
    ghost use Rattle.std.specs.Prelude.{List, ℕ, map};
    ghost use Rattle.std.specs.Coded.{coded_list, coded×, coded_ℕ};
    ghost use Rattle.cov_table.specs.Key.{Key, key_code};

    ghost Value = { List (Key × ℕ) };

    ghost coded = { coded_list (coded× key_code coded_ℕ) };

    ghost use Rattle.cov_table.specs.Rows.{row_entry};

    ghost view = { λ u. map (row_entry u.texts.now) u.rows.items };
}

impl<'a> Units<'a> {
    ghost use Rattle.std.specs.Prelude.{map};
    ghost use Rattle.cov_table.specs.Rows.{row_entry};
    ghost use Rattle.cov_table.specs.Unit.{unit_entry};

    pub(crate) fn new(texts: &'a StringTable, rows: Vec<Row>) -> Units<'a>
        ensures { result ≡ map (row_entry texts.now) rows.items }
    {
        Units { texts, rows }
    }

    /// How many units there are.
    pub fn len(&self) -> usize
        ensures { result ≡ length self.now }
    {
        self.rows.len()
    }

    /// The unit at a place in the order, from 0.
    pub fn get(&self, i: usize) -> Option<Unit<'a>>
        ensures { option_map unit_entry result ≡ slice_get self.now i }
    {
        let row = self.rows.get(i)?;
        Some(Unit {
            package_path: text_of(self.texts, row.package_path),
            file: text_of(self.texts, row.file),
            function: text_of(self.texts, row.function),
            literal: row.literal,
            start_line: row.start_line,
            start_column: row.start_column,
            end_line: row.end_line,
            end_column: row.end_column,
            statements: row.statements,
            count: row.count,
        })
    }
}
