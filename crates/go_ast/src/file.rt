//! Files.
use crate::decl::Decl;
use crate::name::Name;
use crate::text::Text;
use sqlite_items::Items;

/// A source file.
#[derive(Debug, Drop)]
pub struct File {
    /// The package that the file belongs to.
    pub package: Name,
    pub imports: Items<Import>,
    pub decls: Items<Decl>,
    /// The number of counters.
    pub counts: u32,
}

/// An import: the path, which is the value of its literal, and the offset of the literal.
#[derive(Debug, Drop)]
pub struct Import {
    pub path: Text,
    pub at: u32,
}
