//! What begins with an expression.
use go_ast::{Expr, Name, Stmt};
use sqlite_items::Items;

/// What an expression at the front of a statement is part of.
#[derive(Drop)]
pub enum Lead {
    /// No more than itself.
    Expr(Expr),
    Stmt(Stmt),
    /// The names of a range, whose `range` comes next.
    Range(Items<Name>),
}
