//! Operands: what an expression is found to be.
use crate::constant::Constant;
use crate::kinds::OperandKind;
use crate::names::Callee;
use crate::types::ValueType;
use go_meaning::Expr;
use sqlite_items::Items;

/// A value.
#[derive(Debug, Drop)]
pub enum Term {
    Constant(OperandKind, Constant),
    Nil,
    /// A value that isn't constant, with what computes it.
    Value(ValueType, Expr),
}

/// What an expression is.
#[derive(Debug, Drop)]
pub enum Operand {
    Term(Term),
    /// A call without results, or with several.
    Results(Items<ValueType>, Expr),
    Type(ValueType),
    Callee(Callee),
    /// A package, a mutex, a wait group or a type of these.
    Other,
}

/// An operand, and the offset of its expression inside its parentheses.
#[derive(Debug, Drop)]
pub struct Part {
    pub at: u32,
    pub operand: Operand,
}

/// A value, and the offset of its expression inside its parentheses.
#[derive(Debug, Drop)]
pub struct Argument {
    pub at: u32,
    pub term: Term,
}
