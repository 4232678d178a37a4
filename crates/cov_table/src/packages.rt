//! The packages of a table in order.
ghost use Rattle.std.specs.Prelude.{◌≡◌, length, slice_get};
ghost use Rattle.std.specs.Option.{option_map};

use crate::order::text_of;
use crate::row::PackageRow;
use cov_bytes::StringTable;
use std::marker::Model;

/// A package: its path, its name and the path of its module.
#[derive(Clone, Copy, Debug)]
pub struct Package<'a> {
    pub path: &'a [u8],
    pub name: &'a [u8],
    pub module: &'a [u8],
}

/// The packages of a table, in the order of their paths.
#[derive(Debug, Drop)]
pub struct Packages<'a> {
    texts: &'a StringTable,
    rows: Vec<PackageRow>,
}

impl<'a> Model for Packages<'a> {
    ghost use Rattle.std.specs.Prelude.{List, ℕ, map};
    ghost use Rattle.cov_table.specs.Rows.{package_entry};

    ghost Value = { List (List ℕ × (List ℕ × List ℕ)) };

    ghost view = { λ p. map (package_entry p.texts.now) p.rows.items };
}

impl<'a> Packages<'a> {
    ghost use Rattle.std.specs.Prelude.{map};
    ghost use Rattle.cov_table.specs.Rows.{package_entry};
    ghost use Rattle.cov_table.specs.Package.{named_package};

    pub(crate) fn new(texts: &'a StringTable, rows: Vec<PackageRow>) -> Packages<'a>
        ensures { result ≡ map (package_entry texts.now) rows.items }
    {
        Packages { texts, rows }
    }

    /// How many packages there are.
    pub fn len(&self) -> usize
        ensures { result ≡ length self.now }
    {
        self.rows.len()
    }

    /// The package at a place in the order, from 0.
    pub fn get(&self, i: usize) -> Option<Package<'a>>
        ensures { option_map named_package result ≡ slice_get self.now i }
    {
        let row = self.rows.get(i)?;
        Some(Package {
            path: text_of(self.texts, row.path),
            name: text_of(self.texts, row.name),
            module: text_of(self.texts, row.module),
        })
    }
}
