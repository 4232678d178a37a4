//! Units.
use go_ast::Text;
use sqlite_items::Items;

/// A stretch of a function that runs as a whole or not at all, up to the statement where control may leave it.
#[derive(Clone, Copy, Debug, PartialEq, Eq)]
pub struct Unit {
    /// The offset of its first byte.
    pub start: u32,
    /// The offset after its last byte.
    pub end: u32,
    /// The offset at which its counter is put into the text.
    pub insert: u32,
    /// The number of its statements.
    pub statements: u32,
}

/// A function's name, and its units in the order of their numbers.
#[derive(Debug, Drop)]
pub struct FuncUnits {
    pub name: Text,
    pub units: Items<Unit>,
}
