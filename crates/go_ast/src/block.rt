//! Statements and blocks.
use crate::expr::{BinaryOp, Expr, TypeExpr};
use crate::name::Name;
use crate::span::Span;
use sqlite_items::{Boxed, Items};

/// A constant of a declaration.
#[derive(Debug, Drop)]
pub struct ConstSpec {
    pub name: Name,
    pub kind: Option<TypeExpr>,
    pub value: Expr,
}

/// Variables of a declaration that share a type and values.
#[derive(Debug, Drop)]
pub struct VarSpec {
    pub names: Items<Name>,
    pub kind: Option<TypeExpr>,
    pub values: Items<Expr>,
}

/// A block, with the offsets of its braces.
///
/// The `if` of an `else if` stands in a hidden block without braces: `left` is the offset after `else` and `right` the
/// end of that `if`.
#[cycle(block)]
#[derive(Debug, Drop)]
pub struct Block {
    pub left: u32,
    pub right: u32,
    pub hidden: bool,
    pub list: Items<Stmt>,
}

/// A statement and where it stands.
#[cycle(block)]
#[derive(Debug, Drop)]
pub struct Stmt {
    pub span: Span,
    pub form: StmtForm,
}

#[cycle(block)]
#[derive(Debug, Drop)]
pub enum StmtForm {
    Const(Items<ConstSpec>),
    Var(Items<VarSpec>),
    /// An expression statement.
    Eval(Expr),
    /// A channel and the value that is sent.
    Send(Expr, Expr),
    /// `++`.
    Up(Target),
    /// `--`.
    Down(Target),
    /// An assignment with an operator.
    Update(Target, BinaryOp, Expr),
    Assign(Items<Target>, Items<Expr>),
    /// `:=`.
    Define(Items<Name>, Items<Expr>),
    Block(Block),
    If {
        first: Option<Boxed<Stmt>>,
        test: Expr,
        then: Block,
        other: Option<Other>,
    },
    For {
        first: Option<Boxed<Stmt>>,
        test: Option<Expr>,
        last: Option<Boxed<Stmt>>,
        body: Block,
    },
    Range {
        names: Items<Name>,
        over: Expr,
        body: Block,
    },
    Switch {
        first: Option<Boxed<Stmt>>,
        tag: Option<Expr>,
        /// The offset of the left brace.
        left: u32,
        clauses: Items<CaseClause>,
    },
    Select {
        /// The offset of the left brace.
        left: u32,
        clauses: Items<CommClause>,
    },
    Label(Name, Boxed<Stmt>),
    Return(Items<Expr>),
    Break(Option<Name>),
    Continue(Option<Name>),
    Fallthrough,
    Go(Expr),
    Defer(Expr),
    /// The counter with a number.
    Count(u32),
}

/// What is assigned to.
#[derive(Debug, Drop)]
pub enum Target {
    Plain(Name),
    /// A package and a variable of it.
    Member(Name, Name),
}

/// What follows `else`, and the offset after that word.
#[cycle(block)]
#[derive(Debug, Drop)]
pub struct Other {
    pub after: u32,
    pub block: Block,
}

/// A clause of a `switch`. There are no values for `default`.
#[cycle(block)]
#[derive(Debug, Drop)]
pub struct CaseClause {
    pub values: Option<Items<Expr>>,
    /// The offset of the colon.
    pub colon: u32,
    pub list: Items<Stmt>,
}

/// A clause of a `select`.
#[cycle(block)]
#[derive(Debug, Drop)]
pub struct CommClause {
    pub comm: Comm,
    /// The offset of the colon.
    pub colon: u32,
    pub list: Items<Stmt>,
}

/// What a clause of a `select` waits for.
#[derive(Debug, Drop)]
pub enum Comm {
    Default,
    /// A channel and the value that is sent.
    Send(Expr, Expr),
    /// A receive, and what takes its values.
    Take {
        targets: Items<Target>,
        channel: Expr,
    },
    /// A receive that declares what takes its values.
    TakeNew {
        names: Items<Name>,
        channel: Expr,
    },
}
