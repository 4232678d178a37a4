//! Parts of statements.
use go_ast::{Block, Expr, Name, Other, Stmt};
use sqlite_items::{Boxed, Items};

/// A block, and the offset of its end.
#[derive(Drop)]
pub struct Braced {
    pub block: Block,
    pub end: u32,
}

/// What stands between `if` or `switch` and its `{`.
#[derive(Drop)]
pub struct Header {
    pub first: Option<Boxed<Stmt>>,
    pub test: Option<Expr>,
}

/// What follows the block of an `if`, and the end of it all.
#[derive(Drop)]
pub struct Else {
    pub other: Option<Other>,
    pub end: u32,
}

/// What stands between `for` and its `{`.
#[derive(Drop)]
pub enum ForHead {
    Test(Option<Expr>),
    Parts(Option<Boxed<Stmt>>, Option<Expr>, Option<Boxed<Stmt>>),
    Range(Items<Name>, Expr),
}
