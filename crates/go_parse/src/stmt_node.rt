//! Statements made of their parts.
ghost use Rattle.std.specs.Prelude.{◌≡◌, [], ◌∷◌, Some, IfOk};
ghost use Rattle.go_grammar.specs.Trees as trees;
ghost use Rattle.go_reading.specs.Simple.{eval_stmt as spec_eval_stmt};
ghost use Rattle.go_reading.specs.Stmts.{for_form};

use go_ast::{Block, CaseClause, Expr, Name, Other, Span, Stmt, StmtForm};
use go_reading::{Braced, Else, ForHead, Header};
use sqlite_items::{Boxed, Items};
use std::alloc::{AllocError, Global};

/// A statement from an offset to another.
#[tactic(auto, unfolding(go_grammar::specs::Trees::stmt_node))]
pub fn stmt_of(start: u32, end: u32, form: StmtForm) -> Stmt
    ensures { result ≡ trees.stmt_node start end form }
{
    let span = Span { start, end };
    Stmt { span, form }
}

/// An expression that is a statement.
pub fn eval_stmt(tree: Expr) -> Stmt
    ensures { result ≡ spec_eval_stmt tree }
{
    let start = tree.span.start;
    let end = tree.span.end;
    stmt_of(start, end, StmtForm::Eval(tree))
}

/// A label and its statement.
pub fn label_of(alloc: Global, name: Name, of: Stmt) -> Result<Stmt, AllocError>
    ensures { IfOk result (λ found. found ≡ trees.stmt_node name.at (trees.stmt_end of) (StmtForm.Label name of)) }
{
    let start = name.at;
    let end = of.span.end;
    let form = StmtForm::Label(name, Boxed::new(alloc, of)?);
    Ok(stmt_of(start, end, form))
}

/// Statements between braces.
#[tactic(auto, unfolding(go_grammar::specs::Trees::block_node))]
pub fn block_of(left: u32, right: u32, list: Items<Stmt>) -> Block
    ensures { result ≡ trees.block_node left right list }
{
    Block {
        left,
        right,
        hidden: false,
        list,
    }
}

/// A block that is a statement.
pub fn nested_of(found: Braced) -> Stmt
    ensures { result ≡ trees.stmt_node (trees.block_left found.block) found.end (StmtForm.Block found.block) }
{
    let Braced { block, end } = found;
    let start = block.left;
    stmt_of(start, end, StmtForm::Block(block))
}

/// An `else` that ends at an offset, and its block.
#[tactic(auto, unfolding(go_grammar::specs::Trees::other_node))]
pub fn else_of(after: u32, found: Braced) -> Else
    ensures other { result.other ≡ Some (trees.other_node after found.block) }
    ensures end { result.end ≡ found.end }
{
    let Braced { block, end } = found;
    let other = Some(Other { after, block });
    Else { other, end }
}

/// The block that holds an `if` behind an `else`.
#[tactic(auto, unfolding(go_grammar::specs::Trees::hidden_block))]
fn hidden_block(alloc: Global, after: u32, found: Stmt) -> Result<Block, AllocError>
    ensures { IfOk result (λ block. block ≡ trees.hidden_block after found) }
{
    let right = found.span.end;
    let mut list = Items::new(alloc);
    list.push(found)?;
    Ok(Block {
        left: after,
        right,
        hidden: true,
        list,
    })
}

/// An `else` that ends at an offset, and the `if` behind it.
pub fn else_if_of(alloc: Global, after: u32, found: Stmt) -> Result<Else, AllocError>
    ensures { IfOk result (λ x. (x.other ≡ Some (trees.other_node after (trees.hidden_block after found))) × (x.end ≡ trees.stmt_end found)) }
{
    let end = found.span.end;
    let block = hidden_block(alloc, after, found)?;
    Ok(else_of(after, Braced { block, end }))
}

/// An `if` from an offset to the end of its `else`.
pub fn if_of(start: u32, first: Option<Boxed<Stmt>>, test: Expr, then: Block, rest: Else) -> Stmt
    ensures { result ≡ trees.stmt_node start rest.end (StmtForm.If first test then rest.other) }
{
    let Else { other, end } = rest;
    let form = StmtForm::If {
        first,
        test,
        then,
        other,
    };
    stmt_of(start, end, form)
}

/// What a `for` is by what stands before its block.
fn form_of_for(head: ForHead, body: Block) -> StmtForm
    ensures { result ≡ for_form head body }
{
    match head {
        ForHead::Test(test) => StmtForm::For {
            first: None,
            test,
            last: None,
            body,
        },
        ForHead::Parts(first, test, last) => StmtForm::For {
            first,
            test,
            last,
            body,
        },
        ForHead::Range(names, over) => StmtForm::Range { names, over, body },
    }
}

/// A `for` from an offset to the end of its block.
pub fn for_of(start: u32, head: ForHead, body: Braced) -> Stmt
    ensures { result ≡ trees.stmt_node start body.end (for_form head body.block) }
{
    let Braced { block, end } = body;
    let form = form_of_for(head, block);
    stmt_of(start, end, form)
}

/// A `switch` from an offset to another, whose brace is at a third.
pub fn switch_of(start: u32, head: Header, left: u32, clauses: Items<CaseClause>, end: u32) -> Stmt
    ensures { result ≡ trees.stmt_node start end (StmtForm.Switch head.first head.test left clauses) }
{
    let Header { first, test } = head;
    let form = StmtForm::Switch {
        first,
        tag: test,
        left,
        clauses,
    };
    stmt_of(start, end, form)
}
