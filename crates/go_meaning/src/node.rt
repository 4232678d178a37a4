//! Statements of a program. A nested list is the number of a list of the program.
use crate::expr::{Expr, Op, Target, Variable};
use go_ast::Span;
use sqlite_items::Items;

/// Targets, and what is assigned to them.
///
/// There is one value for each target, or one call or receive that gives them all.
#[derive(Debug, Drop)]
pub struct Assignment {
    pub targets: Items<Target>,
    pub values: Items<Expr>,
}

/// A simple statement.
#[derive(Debug, Drop)]
pub enum Simple {
    /// An expression statement and its number of results.
    Eval {
        value: Expr,
        results: u64,
        /// Whether it is written as a call of the name `panic` with one argument.
        panics: bool,
    },
    /// A channel and the value that is sent.
    Send(Expr, Expr),
    /// An assignment with an operator. `x++` and `x--` are `x += 1` and `x -= 1`.
    Update(Variable, Op, Expr),
    /// An assignment, or `:=`.
    Assign(Assignment),
}

/// A call that `defer` can name, and where it has a fixed operand its number.
#[derive(Clone, Copy, Debug, PartialEq, Eq)]
pub enum Deferral {
    /// A function of the program.
    Call(u64),
    Done(u64),
    Unlock(u64),
    Close,
    /// `fmt.Println` of that many values.
    Println(u64),
}

/// A clause of a `switch`. There are no values for `default`.
#[derive(Debug, Drop)]
pub struct CaseClause {
    pub values: Option<Items<Expr>>,
    pub list: u64,
}

/// What a clause of a `select` waits for.
#[derive(Debug, Drop)]
pub enum Comm {
    Default,
    /// A channel and the value that is sent.
    Send(Expr, Expr),
    /// A receive, and what takes the value, or the value and whether it was sent.
    Receive {
        channel: Expr,
        targets: Items<Target>,
    },
}

/// A clause of a `select`.
#[derive(Debug, Drop)]
pub struct CommClause {
    pub comm: Comm,
    pub list: u64,
}

/// A statement and where it stands in its source.
#[derive(Debug, Drop)]
pub struct Node {
    pub span: Span,
    pub form: NodeForm,
}

/// A label is gone: the statement that bears it stands in its place.
#[derive(Debug, Drop)]
pub enum NodeForm {
    /// A declaration of constants.
    Const,
    /// A declaration of variables, with zero values where none are given.
    Var(Items<Assignment>),
    Simple(Simple),
    Block {
        list: u64,
        /// Whether it begins a clause and its brace follows the clause's colon directly.
        at_colon: bool,
    },
    If {
        first: Option<Simple>,
        test: Expr,
        then: u64,
        /// The list of `else`. That of an `else if` holds the one `if`.
        other: Option<u64>,
    },
    For {
        first: Option<Simple>,
        test: Option<Expr>,
        last: Option<Simple>,
        body: u64,
    },
    /// A `range` over a string. The targets take the offset and the rune.
    RangeText {
        offset: Target,
        rune: Target,
        over: Expr,
        body: u64,
    },
    /// A `range` over a channel.
    RangeChannel {
        value: Target,
        over: Expr,
        body: u64,
    },
    /// Without an expression in the source the tag is `true`.
    Switch {
        first: Option<Simple>,
        tag: Expr,
        clauses: Items<CaseClause>,
    },
    Select(Items<CommClause>),
    /// The values, and how many results they are. One call can give them all.
    Return(Items<Expr>, u64),
    /// How many statements that are targets of `break` or `continue` it leaves before its own.
    Break(u64),
    Continue(u64),
    /// The list of the next clause.
    Fallthrough(u64),
    Go(u64, Items<Expr>),
    Defer(Deferral, Items<Expr>),
    /// The counter of a unit.
    Count(u32),
}
