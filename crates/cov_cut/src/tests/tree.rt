//! Trees of statements from tables, in which an offset is 100 times its line and its column.
use go_ast::{
    Block, CaseClause, Comm, CommClause, Decl, Expr, ExprForm, File, Func, Name, NoMemory, Other,
    Span, Stmt, StmtForm, Text,
};
use sqlite_items::{Boxed, Items};
use std::alloc::Global;

/// A statement, by its offsets in the order of the text.
#[cycle(tree)]
pub enum Tree<'a> {
    /// From a start to an end.
    Plain(u16, u16),
    Fallthrough(u16, u16),
    /// A call of `panic` with one argument.
    Panic(u16, u16),
    /// The braces, and the statements between them.
    Block(u16, u16, &'a [Tree<'a>]),
    /// The start and the braces.
    For(u16, u16, u16, &'a [Tree<'a>]),
    If(u16, u16, u16, &'a [Tree<'a>], Else<'a>),
    Switch(u16, u16, u16, &'a [Clause<'a>]),
    Select(u16, u16, u16, &'a [Clause<'a>]),
    Label(u16, &'a Tree<'a>),
}

/// What follows an `if`: the offset after `else`, and a block or an `if`.
#[cycle(tree)]
pub enum Else<'a> {
    Nothing,
    Block(u16, u16, u16, &'a [Tree<'a>]),
    If(u16, &'a Tree<'a>),
}

/// The colon of a clause, and its statements.
#[cycle(tree)]
pub struct Clause<'a>(pub u16, pub &'a [Tree<'a>]);

fn name(alloc: Global, text: &[u8], at: u16) -> Result<Name, NoMemory> {
    Ok(Name {
        text: Text::of(alloc, text)?,
        at: u32::from(at),
    })
}

fn plain(alloc: Global, text: &[u8], at: u16) -> Result<Expr, NoMemory> {
    Ok(Expr {
        span: Span {
            start: u32::from(at),
            end: u32::from(at) + 1,
        },
        form: ExprForm::Plain(name(alloc, text, at)?),
    })
}

fn panics(alloc: Global, start: u16, end: u16) -> Result<Expr, NoMemory> {
    let callee = plain(alloc, b"panic", start)?;
    let mut arguments = Items::new(alloc);
    arguments.push(plain(alloc, b"x", start)?)?;
    Ok(Expr {
        span: Span {
            start: u32::from(start),
            end: u32::from(end),
        },
        form: ExprForm::Call(Boxed::new(alloc, callee)?, arguments),
    })
}

fn start_of(tree: &Tree<'_>) -> u16 {
    match tree {
        Tree::Plain(start, _)
        | Tree::Fallthrough(start, _)
        | Tree::Panic(start, _)
        | Tree::Block(start, _, _)
        | Tree::For(start, _, _, _)
        | Tree::If(start, _, _, _, _)
        | Tree::Switch(start, _, _, _)
        | Tree::Select(start, _, _, _)
        | Tree::Label(start, _) => *start,
    }
}

#[cycle(end)]
fn end_of(tree: &Tree<'_>) -> u32 {
    match tree {
        Tree::Plain(_, end) | Tree::Fallthrough(_, end) | Tree::Panic(_, end) => u32::from(*end),
        Tree::Block(_, right, _)
        | Tree::For(_, _, right, _)
        | Tree::Switch(_, _, right, _)
        | Tree::Select(_, _, right, _) => u32::from(*right) + 1,
        Tree::If(_, _, right, _, other) => end_with(u32::from(*right) + 1, other),
        Tree::Label(_, inner) => end_of(inner),
    }
}

#[cycle(end)]
fn end_with(end: u32, other: &Else<'_>) -> u32 {
    match other {
        Else::Nothing => end,
        Else::Block(_, _, right, _) => u32::from(*right) + 1,
        Else::If(_, inner) => end_of(inner),
    }
}

#[cycle(build)]
fn build(alloc: Global, tree: &Tree<'_>) -> Result<Stmt, NoMemory> {
    let form = build_form(alloc, tree)?;
    let span = Span {
        start: u32::from(start_of(tree)),
        end: end_of(tree),
    };
    Ok(Stmt { span, form })
}

#[cycle(build)]
fn build_form(alloc: Global, tree: &Tree<'_>) -> Result<StmtForm, NoMemory> {
    match tree {
        Tree::Plain(_, _) => Ok(StmtForm::Return(Items::new(alloc))),
        Tree::Fallthrough(_, _) => Ok(StmtForm::Fallthrough),
        Tree::Panic(start, end) => Ok(StmtForm::Eval(panics(alloc, *start, *end)?)),
        Tree::Block(left, right, list) => {
            Ok(StmtForm::Block(build_block(alloc, *left, *right, list)?))
        }
        Tree::For(_, left, right, list) => build_for(alloc, *left, *right, list),
        Tree::If(_, left, right, list, other) => {
            let then = build_block(alloc, *left, *right, list)?;
            if_form(alloc, *left, then, build_else(alloc, other)?)
        }
        Tree::Switch(_, left, _, clauses) => Ok(StmtForm::Switch {
            first: None,
            tag: None,
            left: u32::from(*left),
            clauses: build_cases(alloc, clauses)?,
        }),
        Tree::Select(_, left, _, clauses) => Ok(StmtForm::Select {
            left: u32::from(*left),
            clauses: build_comms(alloc, clauses)?,
        }),
        Tree::Label(start, inner) => build_label(alloc, *start, inner),
    }
}

#[cycle(build)]
fn build_label(alloc: Global, start: u16, inner: &Tree<'_>) -> Result<StmtForm, NoMemory> {
    let inner = Boxed::new(alloc, build(alloc, inner)?)?;
    Ok(StmtForm::Label(name(alloc, b"L", start)?, inner))
}

#[cycle(build)]
fn build_block(alloc: Global, left: u16, right: u16, list: &[Tree<'_>]) -> Result<Block, NoMemory> {
    Ok(Block {
        left: u32::from(left),
        right: u32::from(right),
        hidden: false,
        list: build_list(alloc, list)?,
    })
}

#[cycle(build)]
fn build_for(
    alloc: Global,
    left: u16,
    right: u16,
    list: &[Tree<'_>],
) -> Result<StmtForm, NoMemory> {
    Ok(StmtForm::For {
        first: None,
        test: None,
        last: None,
        body: build_block(alloc, left, right, list)?,
    })
}

fn if_form(
    alloc: Global,
    at: u16,
    then: Block,
    other: Option<Other>,
) -> Result<StmtForm, NoMemory> {
    Ok(StmtForm::If {
        first: None,
        test: plain(alloc, b"x", at)?,
        then,
        other,
    })
}

#[cycle(build)]
fn build_else(alloc: Global, other: &Else<'_>) -> Result<Option<Other>, NoMemory> {
    match other {
        Else::Nothing => Ok(None),
        Else::Block(after, left, right, list) => Ok(Some(Other {
            after: u32::from(*after),
            block: build_block(alloc, *left, *right, list)?,
        })),
        Else::If(after, inner) => {
            let s = build(alloc, inner)?;
            Ok(Some(after_else(alloc, *after, s)?))
        }
    }
}

/// An `if` directly after `else`.
fn after_else(alloc: Global, after: u16, s: Stmt) -> Result<Other, NoMemory> {
    let after = u32::from(after);
    let right = s.span.end;
    let mut list = Items::new(alloc);
    list.push(s)?;
    let block = Block {
        left: after,
        right,
        hidden: true,
        list,
    };
    Ok(Other { after, block })
}

#[cycle(build)]
fn build_cases(alloc: Global, clauses: &[Clause<'_>]) -> Result<Items<CaseClause>, NoMemory> {
    let mut cases = Items::new(alloc);
    for clause in clauses {
        cases.push(CaseClause {
            values: None,
            colon: u32::from(clause.0),
            list: build_list(alloc, clause.1)?,
        })?;
    }
    Ok(cases)
}

#[cycle(build)]
fn build_comms(alloc: Global, clauses: &[Clause<'_>]) -> Result<Items<CommClause>, NoMemory> {
    let mut comms = Items::new(alloc);
    for clause in clauses {
        comms.push(CommClause {
            comm: Comm::Default,
            colon: u32::from(clause.0),
            list: build_list(alloc, clause.1)?,
        })?;
    }
    Ok(comms)
}

#[cycle(build)]
fn build_list(alloc: Global, trees: &[Tree<'_>]) -> Result<Items<Stmt>, NoMemory> {
    let mut list = Items::new(alloc);
    for tree in trees {
        list.push(build(alloc, tree)?)?;
    }
    Ok(list)
}

/// A function: its name, its braces and its statements.
pub struct Row<'a>(pub &'a [u8], pub u16, pub u16, pub &'a [Tree<'a>]);

fn func(alloc: Global, row: &Row<'_>) -> Result<Func, NoMemory> {
    let name = name(alloc, row.0, 0)?;
    let body = build_block(alloc, row.1, row.2, row.3)?;
    let span = Span {
        start: 0,
        end: u32::from(row.2) + 1,
    };
    Ok(Func {
        name,
        params: Items::new(alloc),
        results: Items::new(alloc),
        body,
        span,
    })
}

/// A file of functions.
pub fn file(alloc: Global, rows: &[Row<'_>]) -> Result<File, NoMemory> {
    let package = name(alloc, b"p", 0)?;
    let mut decls = Items::new(alloc);
    for row in rows {
        decls.push(Decl::Func(func(alloc, row)?))?;
    }
    Ok(File {
        package,
        imports: Items::new(alloc),
        decls,
        counts: 0,
    })
}
