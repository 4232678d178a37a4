//! Packages of a module with the texts of their files.
use cov_outside::{Sequence, Text as Path};
use go_ast::{File, Text};
use sqlite_items::Items;

/// Where a module is: its directory and its path.
#[derive(Debug, Drop)]
pub struct Home {
    pub dir: Path,
    pub path: Text,
}

/// A source file: its name, its tree and its text.
#[derive(Debug, Drop)]
pub struct Source {
    pub name: Text,
    pub tree: File,
    pub text: Sequence<u8>,
}

/// A package: its import path, its directory, its name and its source files.
#[derive(Debug, Drop)]
pub struct Found {
    pub path: Text,
    pub dir: Text,
    pub name: Text,
    pub sources: Items<Source>,
}
