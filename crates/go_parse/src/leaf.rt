//! Statements without statements in them, by their first word.
ghost use Rattle.std.specs.Prelude.{◌≡◌, ◌≤◌, ◌<◌, ◌+◌, IfOk, IfSome, Some, List, ℕ};
ghost use Rattle.go_ast.specs.declared.block.Stmt.{Stmt as StmtValue};
ghost use Rattle.go_grammar.specs.Words.{Word};
ghost use Rattle.go_reading.specs.Input.{Outcome, Tall, Reads, go_on, pure};
ghost use Rattle.go_parse.specs.Parts.{leaves, worded};
ghost use Rattle.go_reading.specs.Stmts as spec;

use crate::cursor::Tokens;
use crate::ends::exprs_end;
use crate::expr::{expr, exprs};
use crate::fault::DEEP;
use crate::kind::begins;
use crate::spec::{consts, vars};
use crate::stmt_node::stmt_of;
use crate::words::{BREAK, CONST, CONTINUE, DEFER, FALLTHROUGH, GO, RETURN, VAR};
use go_ast::{Stmt, StmtForm, TokenKind};
use go_reading::ParseError;
use sqlite_items::Items;
use std::alloc::Global;

#[tactic(auto, unfolding(go_reading::specs::Stmts::const_stmt))]
fn const_stmt(
    alloc: Global,
    tokens: &mut Tokens<'_>,
    turns: usize,
    depth: usize,
) -> Result<(Stmt, usize), ParseError>
    requires { depth < 1000 }
    ensures tall { IfOk result (λ x. x.1 ≤ depth + 1) }
    ensures reads { Reads (spec.const_stmt turns depth tokens.old) result tokens.new }
{
    let start = tokens.take();
    let ((found, end), height) = consts(alloc, tokens, turns, depth)?;
    Ok((
        stmt_of(start.start, end, StmtForm::Const(found)),
        height + 1,
    ))
}

#[tactic(auto, unfolding(go_reading::specs::Stmts::var_stmt))]
fn var_stmt(
    alloc: Global,
    tokens: &mut Tokens<'_>,
    turns: usize,
    depth: usize,
) -> Result<(Stmt, usize), ParseError>
    requires { depth < 1000 }
    ensures tall { IfOk result (λ x. x.1 ≤ depth + 1) }
    ensures reads { Reads (spec.var_stmt turns depth tokens.old) result tokens.new }
{
    let start = tokens.take();
    let ((found, end), height) = vars(alloc, tokens, turns, depth)?;
    Ok((stmt_of(start.start, end, StmtForm::Var(found)), height + 1))
}

#[tactic(auto, unfolding(go_reading::specs::Stmts::return_stmt))]
fn return_stmt(
    alloc: Global,
    tokens: &mut Tokens<'_>,
    turns: usize,
    depth: usize,
) -> Result<(Stmt, usize), ParseError>
    requires { depth < 1000 }
    ensures tall { IfOk result (λ x. x.1 ≤ depth + 1) }
    ensures reads { Reads (spec.return_stmt turns depth tokens.old) result tokens.new }
{
    let start = tokens.take();
    if !begins(tokens.peek()) {
        let form = StmtForm::Return(Items::new(alloc));
        return Ok((stmt_of(start.start, start.end, form), 1));
    }
    if depth == 0 {
        return Err(DEEP);
    }
    let (values, height) = exprs(alloc, tokens, turns, depth)?;
    let end = exprs_end(0, values.as_slice());
    Ok((
        stmt_of(start.start, end, StmtForm::Return(values)),
        height + 1,
    ))
}

#[tactic(auto, unfolding(go_reading::specs::Stmts::break_stmt))]
fn break_stmt(alloc: Global, tokens: &mut Tokens<'_>) -> Result<(Stmt, usize), ParseError>
    ensures tall { IfOk result (λ x. x.1 ≤ 1) }
    ensures reads { Reads (spec.break_stmt tokens.old) result tokens.new }
{
    let start = tokens.take();
    if !tokens.sees(TokenKind::Name) {
        let form = StmtForm::Break(None);
        return Ok((stmt_of(start.start, start.end, form), 1));
    }
    let (label, end) = tokens.take_name(alloc)?;
    Ok((stmt_of(start.start, end, StmtForm::Break(Some(label))), 1))
}

#[tactic(auto, unfolding(go_reading::specs::Stmts::continue_stmt))]
fn continue_stmt(alloc: Global, tokens: &mut Tokens<'_>) -> Result<(Stmt, usize), ParseError>
    ensures tall { IfOk result (λ x. x.1 ≤ 1) }
    ensures reads { Reads (spec.continue_stmt tokens.old) result tokens.new }
{
    let start = tokens.take();
    if !tokens.sees(TokenKind::Name) {
        let form = StmtForm::Continue(None);
        return Ok((stmt_of(start.start, start.end, form), 1));
    }
    let (label, end) = tokens.take_name(alloc)?;
    Ok((
        stmt_of(start.start, end, StmtForm::Continue(Some(label))),
        1,
    ))
}

#[tactic(auto, unfolding(go_reading::specs::Stmts::fallthrough_stmt))]
fn fallthrough_stmt(tokens: &mut Tokens<'_>) -> (Stmt, usize)
    ensures tall { result.1 ≡ 1 }
    ensures reads { spec.fallthrough_stmt tokens.old ≡ (Ok result, tokens.new) }
{
    let start = tokens.take();
    (stmt_of(start.start, start.end, StmtForm::Fallthrough), 1)
}

#[tactic(auto, unfolding(go_reading::specs::Stmts::go_stmt))]
fn go_stmt(
    alloc: Global,
    tokens: &mut Tokens<'_>,
    turns: usize,
    depth: usize,
) -> Result<(Stmt, usize), ParseError>
    requires { depth < 1000 }
    ensures tall { IfOk result (λ x. x.1 ≤ depth + 1) }
    ensures reads { Reads (spec.go_stmt turns depth tokens.old) result tokens.new }
{
    if depth == 0 {
        return Err(DEEP);
    }
    let start = tokens.take();
    let (call, height) = expr(alloc, tokens, turns, depth, 1)?;
    let end = call.span.end;
    Ok((stmt_of(start.start, end, StmtForm::Go(call)), height + 1))
}

#[tactic(auto, unfolding(go_reading::specs::Stmts::defer_stmt))]
fn defer_stmt(
    alloc: Global,
    tokens: &mut Tokens<'_>,
    turns: usize,
    depth: usize,
) -> Result<(Stmt, usize), ParseError>
    requires { depth < 1000 }
    ensures tall { IfOk result (λ x. x.1 ≤ depth + 1) }
    ensures reads { Reads (spec.defer_stmt turns depth tokens.old) result tokens.new }
{
    if depth == 0 {
        return Err(DEEP);
    }
    let start = tokens.take();
    let (call, height) = expr(alloc, tokens, turns, depth, 1)?;
    let end = call.span.end;
    Ok((stmt_of(start.start, end, StmtForm::Defer(call)), height + 1))
}

/// Some statement, where one was read.
fn some_of(found: Result<(Stmt, usize), ParseError>) -> Result<Option<(Stmt, usize)>, ParseError>
    ensures tall { (most : ℕ) → IfOk found (λ x. x.1 ≤ most) → IfOk result (λ o. IfSome o (λ x. x.1 ≤ most)) }
    ensures reads { (o : Outcome (Tall StmtValue)) (new : List Word) → Reads o found new → Reads (go_on o.0 o.1 (λ x. pure (Some x))) result new }
{
    Ok(Some(found?))
}

/// A statement that begins with a word of its own and holds no statement, and its height, where one comes.
#[tactic(auto, unfolding(crate::specs::Parts::leaves))]
pub fn leaf(
    alloc: Global,
    tokens: &mut Tokens<'_>,
    turns: usize,
    depth: usize,
) -> Result<Option<(Stmt, usize)>, ParseError>
    requires { depth < 1000 }
    ensures tall { IfOk result (λ o. IfSome o (λ x. x.1 ≤ depth + 1)) }
    ensures reads { Reads (worded (leaves turns depth) tokens.old) result tokens.new }
{
    if tokens.sees(CONST) {
        return some_of(const_stmt(alloc, tokens, turns, depth));
    }
    if tokens.sees(VAR) {
        return some_of(var_stmt(alloc, tokens, turns, depth));
    }
    if tokens.sees(RETURN) {
        return some_of(return_stmt(alloc, tokens, turns, depth));
    }
    if tokens.sees(BREAK) {
        return some_of(break_stmt(alloc, tokens));
    }
    if tokens.sees(CONTINUE) {
        return some_of(continue_stmt(alloc, tokens));
    }
    if tokens.sees(FALLTHROUGH) {
        return some_of(Ok(fallthrough_stmt(tokens)));
    }
    if tokens.sees(GO) {
        return some_of(go_stmt(alloc, tokens, turns, depth));
    }
    if tokens.sees(DEFER) {
        return some_of(defer_stmt(alloc, tokens, turns, depth));
    }
    Ok(None)
}
