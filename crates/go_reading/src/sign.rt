//! Tokens behind an expression at the front of a statement.
use go_ast::BinaryOp;

/// What such a token makes of the expression.
#[derive(Clone, Copy, Debug, PartialEq, Eq)]
pub enum Sign {
    Arrow,
    Up,
    Down,
    Update(BinaryOp),
    Comma,
    Assign,
    Define,
    Other,
}
