//! A unit with its count, its texts by their numbers.

/// 40 bytes a unit. The texts stand in the table's pool.
#[derive(Clone, Copy, Debug)]
pub struct Row {
    pub package_path: u32,
    pub file: u32,
    pub function: u32,
    pub literal: bool,
    pub start_line: u32,
    pub start_column: u32,
    pub end_line: u32,
    pub end_column: u32,
    pub statements: u32,
    pub count: u32,
}

/// A package's path, name and module path, by their numbers.
#[derive(Clone, Copy, Debug)]
pub struct PackageRow {
    pub path: u32,
    pub name: u32,
    pub module: u32,
}
