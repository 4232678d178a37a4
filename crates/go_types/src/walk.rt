//! What is known at a place of a function's body, and what its statements have become so far.
use crate::lifo::Lifo;
use crate::names::{Marks, Names};
use crate::types::ValueType;
use go_ast::Text;
use go_meaning::{Node, Variable};
use sqlite_items::Items;

/// A label of a function and its offset.
#[derive(Debug, Drop)]
pub struct Label {
    pub name: Text,
    pub at: u32,
}

/// A statement that `break` can leave.
#[derive(Clone, Copy, PartialEq, Eq, Debug)]
pub struct Enclosing {
    /// The number of the label that it bears.
    pub label: Option<u64>,
    /// Whether `continue` can go on with it: a `for`.
    pub repeats: bool,
}

/// The state of checking within a body.
#[derive(Debug, Drop)]
pub struct Walk {
    /// What the names at the place mean.
    pub names: Names,
    /// How many of the local names stand around the innermost scope.
    pub scope: u64,
    /// Which variables were read and which imports were used.
    pub marks: Marks,
    /// The offset at which the variable of each slot is declared.
    pub declared: Items<u32>,
    /// The labels so far, in the whole function.
    pub labels: Items<Label>,
    /// Which of them a `break` or `continue` names.
    pub named: Items<bool>,
    /// The statements around the place that `break` can leave, the innermost last.
    pub around: Lifo<Enclosing>,
    /// The types of the function's results.
    pub results: Items<ValueType>,
    /// The lists of the program by their numbers. A list that isn't checked to its end is empty.
    pub lists: Items<Items<Node>>,
    /// The unit of the file's first counter.
    pub first_unit: u32,
}

/// What takes a value.
#[derive(Clone, Copy, PartialEq, Eq, Debug)]
pub enum Place {
    /// `_`
    Blank,
    Variable(Variable, ValueType),
    /// A name that `:=` declares.
    New,
}

/// Where a statement stands in its list.
#[derive(Clone, Copy, PartialEq, Eq, Debug)]
pub struct Position {
    /// The offset of the colon, for the first statement of a clause.
    pub colon: Option<u32>,
    /// The list of the next clause, for the last statement of a clause of a `switch` that isn't the last.
    pub next: Option<u64>,
    /// The number of the label that the statement bears.
    pub label: Option<u64>,
}
