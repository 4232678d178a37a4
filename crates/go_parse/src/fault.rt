//! Why there is no tree.
use go_ast::SourceKind;
use go_reading::{Fault, ParseError};

/// Why a text has no tree, or why it wasn't found.
#[derive(Clone, Copy, Debug, PartialEq, Eq)]
pub enum SourceFault {
    /// The first fault of the text, and its offset in bytes from 0.
    At { offset: u32, kind: SourceKind },
    /// The tree passes a limit.
    Limit(WhichSource),
    /// Memory ran out.
    NoMemory,
}

/// A limit on trees.
#[derive(Clone, Copy, Debug, PartialEq, Eq)]
pub enum WhichSource {
    /// 1,000 clauses of a `select`.
    SelectClauses,
    /// 1,000 statements, blocks, expressions and types on a path of the tree.
    Depth,
}

/// The faults of readers.
pub const STRANGE: ParseError = ParseError::Fault(Fault::Unexpected);

pub const DEEP: ParseError = ParseError::Fault(Fault::TooDeep);

pub const MANY: ParseError = ParseError::Fault(Fault::TooMany);

pub const EXHAUSTED: ParseError = ParseError::Fault(Fault::Exhausted);
