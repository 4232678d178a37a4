//! The values of an assignment, a declaration or a `return`.
use crate::operand::Argument;
use crate::queue::Queue;
use crate::types::ValueType;
use go_meaning::{Deferral, Expr, Target};
use sqlite_items::Items;

/// The values that are given to places.
#[derive(Debug, Drop)]
pub enum Given {
    /// One for each place.
    Each(Queue<Argument>),
    /// A call or a receive at an offset that gives them all, with their types.
    Whole {
        at: u32,
        types: Items<ValueType>,
        code: Expr,
    },
}

/// What is assigned, and the types of what the places take.
#[derive(Debug, Drop)]
pub struct Filled {
    pub codes: Items<Expr>,
    pub types: Items<ValueType>,
}

/// A call that `defer` takes.
#[derive(Debug, Drop)]
pub struct Deferred {
    pub what: Deferral,
    pub operands: Items<Expr>,
}

/// A value of a type that is given.
#[derive(Debug, Drop)]
pub struct Typed {
    pub of: ValueType,
    pub code: Expr,
}

/// What a `range` goes over, whether that is a string, and what takes what it gives.
#[derive(Debug, Drop)]
pub struct Ranged {
    pub text: bool,
    pub targets: Items<Target>,
    pub code: Expr,
}
