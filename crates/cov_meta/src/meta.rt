//! What a meta file says.
use cov_outside::{Mode, Sequence, Text};

/// A place in a source file: line and column, both from 1; columns count bytes.
#[derive(Clone, Copy, Debug, PartialEq, Eq)]
pub struct Place2 {
    pub line: u32,
    pub column: u32,
}

/// A unit of a function: statements that run together, from `start` up to `end`.
#[derive(Clone, Copy, Debug, PartialEq, Eq)]
pub struct MetaUnit {
    pub start: Place2,
    pub end: Place2,
    pub statements: u32,
}

/// A function and its units in the order of their counters.
#[derive(Debug, Drop)]
pub struct MetaFunction {
    pub name: Text,
    /// The path of its source file.
    pub file: Text,
    /// Whether it is a function literal.
    pub literal: bool,
    pub units: Sequence<MetaUnit>,
}

/// A package and its functions in the order of their numbers.
#[derive(Debug, Drop)]
pub struct MetaPackage {
    pub name: Text,
    pub path: Text,
    /// The path of the module that it belongs to.
    pub module: Text,
    pub functions: Sequence<MetaFunction>,
}

/// The covered packages of a program, and how its counters count.
#[derive(Debug, Drop)]
pub struct Meta {
    pub mode: Mode,
    pub packages: Sequence<MetaPackage>,
}

/// A meta file: its hash as it stands there, and what it says.
#[derive(Debug, Drop)]
pub struct MetaFile {
    pub hash: [u8; 16],
    pub meta: Meta,
}
