//! Expressions, by precedence climbing.
ghost use Rattle.std.specs.Prelude.{◌≡◌, ◌≤◌, ◌<◌, ◌+◌, max, [], IfOk};
ghost use Rattle.go_grammar.specs.Trees as trees;
ghost use Rattle.go_grammar.specs.Terminals as t;
ghost use Rattle.go_reading.specs.Input.{Reads};
ghost use Rattle.go_reading.specs.Lists.{row_from};
ghost use Rattle.go_reading.specs.Exprs as spec;

use crate::cursor::Tokens;
use crate::fault::{DEEP, EXHAUSTED};
use crate::kind::{binary_op, level, unary_op};
use crate::node::{
    binary_node, call_node, chan_node, cut_node, index_node, paren_node, unary_node,
};
use crate::qualified::{into_expr, qualified_name};
use crate::types::type_expr;
use crate::words::{
    CHAN, COLON, COMMA, LEFT_BRACKET, LEFT_PARENTHESIS, RIGHT_BRACKET, RIGHT_PARENTHESIS,
};
use go_ast::{Expr, TokenKind};
use go_reading::ParseError;
use sqlite_items::Items;
use std::alloc::Global;

/// An expression whose operators outside parentheses bind at least so tightly, and its height.
#[cycle(expr)]
#[tactic(auto, unfolding(go_reading::specs::Exprs::expr))]
pub fn expr(
    alloc: Global,
    tokens: &mut Tokens<'_>,
    turns: usize,
    depth: usize,
    least: u8,
) -> Result<(Expr, usize), ParseError>
    requires { depth ≤ 1000 }
    ensures tall { IfOk result (λ x. x.1 ≤ depth) }
    ensures reads { Reads (spec.expr turns depth least tokens.old) result tokens.new }
{
    if depth == 0 {
        return Err(EXHAUSTED);
    }
    let (first, height) = unary(alloc, tokens, turns, depth - 1)?;
    climb(alloc, tokens, turns, depth - 1, least, first, height)
}

#[cycle(expr)]
#[tactic(auto, unfolding(go_reading::specs::Exprs::unary))]
fn unary(
    alloc: Global,
    tokens: &mut Tokens<'_>,
    turns: usize,
    depth: usize,
) -> Result<(Expr, usize), ParseError>
    requires { depth < 1000 }
    ensures tall { IfOk result (λ x. x.1 ≤ depth + 1) }
    ensures reads { Reads (spec.unary turns depth (spec.expr turns depth) tokens.old) result tokens.new }
{
    let Some(op) = unary_op(tokens.peek()) else {
        return primary(alloc, tokens, turns, depth);
    };
    if depth == 0 {
        return Err(DEEP);
    }
    let start = tokens.take();
    let (inner, height) = expr(alloc, tokens, turns, depth, 6)?;
    Ok((unary_node(alloc, start, op, inner)?, height + 1))
}

/// An expression that goes on from a left side whose operators bind at most so tightly.
#[cycle(expr)]
#[tactic(auto, unfolding(go_reading::specs::Exprs::climb))]
pub fn climb(
    alloc: Global,
    tokens: &mut Tokens<'_>,
    turns: usize,
    depth: usize,
    least: u8,
    first: Expr,
    height: usize,
) -> Result<(Expr, usize), ParseError>
    requires shallow { depth < 1000 }
    requires tall { height ≤ depth + 1 }
    ensures tall { IfOk result (λ x. x.1 ≤ depth + 1) }
    ensures reads { Reads (spec.climb turns depth (spec.expr turns depth) least turns 6 first height tokens.old) result tokens.new }
{
    let mut most = 6;
    let mut left = first;
    let mut height = height;
    for _turn in 0..turns {
        let Some(op) = binary_op(tokens.peek()) else {
            return Ok((left, height));
        };
        let level = level(op);
        if level < least || level > most {
            return Ok((left, height));
        }
        if height > depth {
            return Err(DEEP);
        }
        tokens.take();
        let (right, tall) = expr(alloc, tokens, turns, depth, level + 1)?;
        left = binary_node(alloc, op, left, right)?;
        most = level;
        height = height.max(tall) + 1;
    }
    Err(EXHAUSTED)
}

#[cycle(expr)]
#[tactic(auto, unfolding(go_reading::specs::Exprs::primary, go_reading::specs::Exprs::suffixes_from))]
fn primary(
    alloc: Global,
    tokens: &mut Tokens<'_>,
    turns: usize,
    depth: usize,
) -> Result<(Expr, usize), ParseError>
    requires { depth < 1000 }
    ensures tall { IfOk result (λ x. x.1 ≤ depth + 1) }
    ensures reads { Reads (spec.primary turns depth (spec.expr turns depth) tokens.old) result tokens.new }
{
    let (mut of, mut height) = operand(alloc, tokens, turns, depth)?;
    for _turn in 0..turns {
        let calls = tokens.sees(LEFT_PARENTHESIS);
        if !calls && !tokens.sees(LEFT_BRACKET) {
            return Ok((of, height));
        }
        if height > depth {
            return Err(DEEP);
        }
        (of, height) = if calls {
            call(alloc, tokens, turns, depth, of, height)?
        } else {
            bracket(alloc, tokens, turns, depth, of, height)?
        };
    }
    Err(EXHAUSTED)
}

#[tactic(auto, unfolding(go_reading::specs::Exprs::chan_operand))]
fn chan_operand(
    alloc: Global,
    tokens: &mut Tokens<'_>,
    depth: usize,
) -> Result<(Expr, usize), ParseError>
    requires { depth < 1000 }
    ensures tall { IfOk result (λ x. x.1 ≤ depth + 1) }
    ensures reads { Reads (spec.chan_operand depth tokens.old) result tokens.new }
{
    let start = tokens.take();
    let (of, height) = type_expr(alloc, tokens, depth)?;
    Ok((chan_node(start, of), height + 1))
}

#[cycle(expr)]
#[tactic(auto, unfolding(go_reading::specs::Exprs::operand))]
fn operand(
    alloc: Global,
    tokens: &mut Tokens<'_>,
    turns: usize,
    depth: usize,
) -> Result<(Expr, usize), ParseError>
    requires { depth < 1000 }
    ensures tall { IfOk result (λ x. x.1 ≤ depth + 1) }
    ensures reads { Reads (spec.operand turns depth (spec.expr turns depth) tokens.old) result tokens.new }
{
    if tokens.sees(TokenKind::Int) {
        return Ok((tokens.take_int(alloc)?, 1));
    }
    if tokens.sees(TokenKind::Rune) {
        return Ok((tokens.take_rune(), 1));
    }
    if tokens.sees(TokenKind::Text) {
        return Ok((tokens.take_text(alloc)?, 1));
    }
    if tokens.sees(CHAN) {
        if depth == 0 {
            return Err(DEEP);
        }
        return chan_operand(alloc, tokens, depth);
    }
    if tokens.sees(LEFT_PARENTHESIS) {
        if depth == 0 {
            return Err(DEEP);
        }
        return paren(alloc, tokens, turns, depth);
    }
    let found = qualified_name(alloc, tokens, 1)?;
    Ok((into_expr(found), 1))
}

#[cycle(expr)]
#[tactic(auto, unfolding(go_reading::specs::Exprs::paren))]
fn paren(
    alloc: Global,
    tokens: &mut Tokens<'_>,
    turns: usize,
    depth: usize,
) -> Result<(Expr, usize), ParseError>
    requires { depth < 1000 }
    ensures tall { IfOk result (λ x. x.1 ≤ depth + 1) }
    ensures reads { Reads (spec.paren turns depth (spec.expr turns depth) tokens.old) result tokens.new }
{
    let start = tokens.take();
    let (inner, height) = expr(alloc, tokens, turns, depth, 1)?;
    let finish = tokens.expect(RIGHT_PARENTHESIS)?;
    Ok((paren_node(alloc, start, inner, finish)?, height + 1))
}

/// A call, from its `(` on.
#[cycle(expr)]
#[tactic(auto, unfolding(go_reading::specs::Exprs::call))]
pub fn call(
    alloc: Global,
    tokens: &mut Tokens<'_>,
    turns: usize,
    depth: usize,
    of: Expr,
    height: usize,
) -> Result<(Expr, usize), ParseError>
    requires shallow { depth < 1000 }
    requires tall { height ≤ depth }
    ensures tall { IfOk result (λ x. x.1 ≤ depth + 1) }
    ensures reads { Reads (spec.call turns depth (spec.expr turns depth) of height tokens.old) result tokens.new }
{
    tokens.take();
    let (found, tall) = args(alloc, tokens, turns, depth)?;
    let finish = tokens.expect(RIGHT_PARENTHESIS)?;
    let found = call_node(alloc, of, found, finish)?;
    Ok((found, height.max(tall) + 1))
}

#[cycle(expr)]
#[tactic(auto, unfolding(go_reading::specs::Exprs::args, go_reading::specs::Lists::list_of, go_reading::specs::Lists::list_from))]
fn args(
    alloc: Global,
    tokens: &mut Tokens<'_>,
    turns: usize,
    depth: usize,
) -> Result<(Items<Expr>, usize), ParseError>
    requires { depth < 1000 }
    ensures tall { IfOk result (λ x. x.1 ≤ depth) }
    ensures reads { Reads (spec.args turns depth (spec.expr turns depth) tokens.old) result tokens.new }
{
    let mut found = Items::new(alloc);
    if tokens.sees(RIGHT_PARENTHESIS) {
        return Ok((found, 0));
    }
    let mut height = 0;
    for _turn in 0..turns {
        let (arg, tall) = expr(alloc, tokens, turns, depth, 1)?;
        found.push(arg)?;
        height = height.max(tall);
        if !tokens.sees(COMMA) {
            return Ok((found, height));
        }
        tokens.take();
        if tokens.sees(RIGHT_PARENTHESIS) {
            return Ok((found, height));
        }
    }
    Err(EXHAUSTED)
}

/// An index or a cut, from its `[` on.
#[cycle(expr)]
#[tactic(auto, unfolding(go_reading::specs::Exprs::bracket))]
pub fn bracket(
    alloc: Global,
    tokens: &mut Tokens<'_>,
    turns: usize,
    depth: usize,
    of: Expr,
    height: usize,
) -> Result<(Expr, usize), ParseError>
    requires shallow { depth < 1000 }
    requires tall { height ≤ depth }
    ensures tall { IfOk result (λ x. x.1 ≤ depth + 1) }
    ensures reads { Reads (spec.bracket turns depth (spec.expr turns depth) of height tokens.old) result tokens.new }
{
    tokens.take();
    if tokens.sees(COLON) {
        return cut_from(alloc, tokens, turns, depth, of, height, None, 0);
    }
    let (at, tall) = expr(alloc, tokens, turns, depth, 1)?;
    if !tokens.sees(RIGHT_BRACKET) {
        return cut_from(alloc, tokens, turns, depth, of, height, Some(at), tall);
    }
    let finish = tokens.take();
    let found = index_node(alloc, of, at, finish)?;
    Ok((found, height.max(tall) + 1))
}

/// A cut, from its `:` on.
#[cycle(expr)]
#[tactic(auto, unfolding(go_reading::specs::Exprs::cut_from))]
fn cut_from(
    alloc: Global,
    tokens: &mut Tokens<'_>,
    turns: usize,
    depth: usize,
    of: Expr,
    height: usize,
    low: Option<Expr>,
    low_height: usize,
) -> Result<(Expr, usize), ParseError>
    requires shallow { depth < 1000 }
    requires tall { height ≤ depth }
    requires low { low_height ≤ depth }
    ensures tall { IfOk result (λ x. x.1 ≤ depth + 1) }
    ensures reads { Reads (spec.cut_from turns depth (spec.expr turns depth) of height low low_height tokens.old) result tokens.new }
{
    tokens.expect(COLON)?;
    let (high, tall) = bound(alloc, tokens, turns, depth)?;
    let finish = tokens.expect(RIGHT_BRACKET)?;
    let found = cut_node(alloc, of, low, high, finish)?;
    Ok((found, height.max(low_height.max(tall)) + 1))
}

/// An expression, or none before the `]`.
#[cycle(expr)]
#[tactic(auto, unfolding(go_reading::specs::Exprs::bound))]
fn bound(
    alloc: Global,
    tokens: &mut Tokens<'_>,
    turns: usize,
    depth: usize,
) -> Result<(Option<Expr>, usize), ParseError>
    requires { depth < 1000 }
    ensures tall { IfOk result (λ x. x.1 ≤ depth) }
    ensures reads { Reads (spec.bound turns depth (spec.expr turns depth) tokens.old) result tokens.new }
{
    if tokens.sees(RIGHT_BRACKET) {
        return Ok((None, 0));
    }
    let (found, height) = expr(alloc, tokens, turns, depth, 1)?;
    Ok((Some(found), height))
}

/// Expressions with commas between, and the greatest of their heights.
#[tactic(auto, unfolding(go_reading::specs::Exprs::exprs, go_reading::specs::Lists::row_from))]
pub fn exprs(
    alloc: Global,
    tokens: &mut Tokens<'_>,
    turns: usize,
    depth: usize,
) -> Result<(Items<Expr>, usize), ParseError>
    requires { depth ≤ 1000 }
    ensures tall { IfOk result (λ x. x.1 ≤ depth) }
    ensures reads { Reads (spec.exprs turns depth tokens.old) result tokens.new }
{
    let mut found = Items::new(alloc);
    let mut height = 0;
    for _turn in 0..turns {
        let (value, tall) = expr(alloc, tokens, turns, depth, 1)?;
        found.push(value)?;
        height = height.max(tall);
        if !tokens.sees(COMMA) {
            return Ok((found, height));
        }
        tokens.take();
    }
    Err(EXHAUSTED)
}
