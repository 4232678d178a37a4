//! Modules.
use crate::file::File;
use crate::text::Text;
use sqlite_items::Items;

/// A module: its path, and its packages, the imported ones first.
#[derive(Debug, Drop)]
pub struct Module {
    pub path: Text,
    pub packages: Items<Package>,
}

/// A package: its import path, its directory, its name and its files.
#[derive(Debug, Drop)]
pub struct Package {
    pub path: Text,
    pub dir: Text,
    pub name: Text,
    pub files: Items<SourceFile>,
}

/// A file of a package, under its name in the directory.
#[derive(Debug, Drop)]
pub struct SourceFile {
    pub name: Text,
    pub tree: File,
}
