//! Expressions made of their parts.
ghost use Rattle.std.specs.Prelude.{◌≡◌, IfOk};
ghost use Rattle.go_grammar.specs.Trees as trees;

use go_ast::{BinaryOp, Expr, ExprForm, Span, TypeExpr, UnaryOp};
use sqlite_items::{Boxed, Items};
use std::alloc::{AllocError, Global};

#[tactic(auto, unfolding(go_grammar::specs::Trees::expr_node))]
fn node(start: u32, end: u32, form: ExprForm) -> Expr
    ensures { result ≡ trees.expr_node start end form }
{
    let span = Span { start, end };
    Expr { span, form }
}

/// An operator between two operands.
pub fn binary_node(alloc: Global, op: BinaryOp, left: Expr, right: Expr) -> Result<Expr, AllocError>
    ensures { IfOk result (λ e. e ≡ trees.binary_expr op left right) }
{
    let start = left.span.start;
    let end = right.span.end;
    let form = ExprForm::Binary(op, Boxed::new(alloc, left)?, Boxed::new(alloc, right)?);
    Ok(node(start, end, form))
}

/// An operator before an operand.
pub fn unary_node(alloc: Global, sign: Span, op: UnaryOp, inner: Expr) -> Result<Expr, AllocError>
    ensures { IfOk result (λ e. e ≡ trees.expr_node sign.start (trees.expr_end inner) (ExprForm.Unary op inner)) }
{
    let end = inner.span.end;
    let form = ExprForm::Unary(op, Boxed::new(alloc, inner)?);
    Ok(node(sign.start, end, form))
}

/// What makes a channel of a type.
pub fn chan_node(start: Span, of: TypeExpr) -> Expr
    ensures { result ≡ trees.expr_node start.start (trees.type_end of) (ExprForm.Chan of) }
{
    let end = of.span.end;
    node(start.start, end, ExprForm::Chan(of))
}

/// An expression in parentheses.
pub fn paren_node(alloc: Global, left: Span, inner: Expr, right: Span) -> Result<Expr, AllocError>
    ensures { IfOk result (λ e. e ≡ trees.expr_node left.start right.end (ExprForm.Paren inner)) }
{
    let form = ExprForm::Paren(Boxed::new(alloc, inner)?);
    Ok(node(left.start, right.end, form))
}

/// A call.
pub fn call_node(
    alloc: Global,
    callee: Expr,
    args: Items<Expr>,
    right: Span,
) -> Result<Expr, AllocError>
    ensures { IfOk result (λ e. e ≡ trees.expr_node (trees.expr_start callee) right.end (ExprForm.Call callee args)) }
{
    let start = callee.span.start;
    let form = ExprForm::Call(Boxed::new(alloc, callee)?, args);
    Ok(node(start, right.end, form))
}

/// An index.
pub fn index_node(alloc: Global, of: Expr, at: Expr, right: Span) -> Result<Expr, AllocError>
    ensures { IfOk result (λ e. e ≡ trees.expr_node (trees.expr_start of) right.end (ExprForm.Index of at)) }
{
    let start = of.span.start;
    let form = ExprForm::Index(Boxed::new(alloc, of)?, Boxed::new(alloc, at)?);
    Ok(node(start, right.end, form))
}

/// A cut, with its bounds.
pub fn cut_node(
    alloc: Global,
    of: Expr,
    low: Option<Expr>,
    high: Option<Expr>,
    right: Span,
) -> Result<Expr, AllocError>
    ensures { IfOk result (λ e. e ≡ trees.expr_node (trees.expr_start of) right.end (ExprForm.Cut of low high)) }
{
    let start = of.span.start;
    let form = ExprForm::Cut(
        Boxed::new(alloc, of)?,
        boxed(alloc, low)?,
        boxed(alloc, high)?,
    );
    Ok(node(start, right.end, form))
}

fn boxed(alloc: Global, tree: Option<Expr>) -> Result<Option<Boxed<Expr>>, AllocError>
    ensures { IfOk result (λ found. found ≡ tree) }
{
    match tree {
        None => Ok(None),
        Some(tree) => Ok(Some(Boxed::new(alloc, tree)?)),
    }
}
