//! What stands between `if`, `switch` or `for` and its `{`.
ghost use Rattle.std.specs.Prelude.{◌≡◌, ◌≤◌, ◌<◌, ◌+◌, ◌-◌, max, IfOk};
ghost use Rattle.go_reading.specs.Input.{Reads};
ghost use Rattle.go_reading.specs.Stmts as spec;
ghost use Rattle.go_parse.specs.Parts.{test_part as spec_test_part, for_front as spec_for_front};

use crate::cursor::Tokens;
use crate::expr::expr;
use crate::fault::{DEEP, STRANGE};
use crate::kind::begins;
use crate::plain::{lead, simple};
use crate::stmt_node::eval_stmt;
use crate::words::{LEFT_BRACE, RANGE, SEMICOLON};
use go_ast::{Expr, Name, Stmt, TokenKind};
use go_reading::{ForHead, Header, Lead, ParseError};
use sqlite_items::{Boxed, Items};
use std::alloc::Global;

/// An expression, or none before a token.
#[tactic(auto, unfolding(go_reading::specs::Stmts::maybe_before))]
fn maybe_before(
    alloc: Global,
    tokens: &mut Tokens<'_>,
    turns: usize,
    depth: usize,
    close: TokenKind,
) -> Result<(Option<Expr>, usize), ParseError>
    requires { depth ≤ 1000 }
    ensures tall { IfOk result (λ x. x.1 ≤ depth) }
    ensures reads { Reads (spec.maybe_before turns depth close tokens.old) result tokens.new }
{
    if tokens.sees(close) {
        return Ok((None, 0));
    }
    let (found, height) = expr(alloc, tokens, turns, depth, 1)?;
    Ok((Some(found), height))
}

/// What stands behind the `;` of a first statement: a test, or maybe a tag.
fn test_part(
    alloc: Global,
    tokens: &mut Tokens<'_>,
    turns: usize,
    depth: usize,
    tests: bool,
) -> Result<(Option<Expr>, usize), ParseError>
    requires { depth ≤ 1000 }
    ensures tall { IfOk result (λ x. x.1 ≤ depth) }
    ensures reads { Reads (spec_test_part turns depth tests tokens.old) result tokens.new }
{
    if !tests {
        return maybe_before(alloc, tokens, turns, depth, LEFT_BRACE);
    }
    let (found, height) = expr(alloc, tokens, turns, depth, 1)?;
    Ok((Some(found), height))
}

/// What follows a first statement, from its `;` on.
#[tactic(auto, unfolding(go_reading::specs::Stmts::after_first))]
fn after_first(
    alloc: Global,
    tokens: &mut Tokens<'_>,
    turns: usize,
    depth: usize,
    tests: bool,
    first: Boxed<Stmt>,
    height: usize,
) -> Result<(Header, usize), ParseError>
    requires shallow { depth ≤ 1000 }
    requires tall { height ≤ depth }
    ensures tall { IfOk result (λ x. x.1 ≤ depth) }
    ensures reads { Reads (spec.after_first turns depth tests first height tokens.old) result tokens.new }
{
    tokens.expect(SEMICOLON)?;
    let (test, tall) = test_part(alloc, tokens, turns, depth, tests)?;
    let found = Header {
        first: Some(first),
        test,
    };
    Ok((found, height.max(tall)))
}

/// What stands between `if` or `switch` and its `{`, where it is something.
#[tactic(auto, unfolding(go_reading::specs::Stmts::header))]
pub fn header(
    alloc: Global,
    tokens: &mut Tokens<'_>,
    turns: usize,
    depth: usize,
    tests: bool,
) -> Result<(Header, usize), ParseError>
    requires { (0 < depth) × (depth ≤ 1000) }
    ensures tall { IfOk result (λ x. x.1 ≤ depth) }
    ensures reads { Reads (spec.header turns depth tests tokens.old) result tokens.new }
{
    let (first, height) = expr(alloc, tokens, turns, depth, 1)?;
    let (found, height) = lead(alloc, tokens, turns, depth - 1, false, first, height)?;
    match found {
        Lead::Expr(test) => {
            if !tokens.sees(SEMICOLON) {
                let found = Header {
                    first: None,
                    test: Some(test),
                };
                return Ok((found, height));
            }
            if height + 1 > depth {
                return Err(DEEP);
            }
            let first = Boxed::new(alloc, eval_stmt(test))?;
            after_first(alloc, tokens, turns, depth, tests, first, height + 1)
        }
        Lead::Stmt(first) => {
            let first = Boxed::new(alloc, first)?;
            after_first(alloc, tokens, turns, depth, tests, first, height)
        }
        Lead::Range(_) => Err(STRANGE),
    }
}

/// The same of a `switch`, where it may be nothing.
#[tactic(auto, unfolding(go_reading::specs::Stmts::maybe_header))]
pub fn maybe_header(
    alloc: Global,
    tokens: &mut Tokens<'_>,
    turns: usize,
    depth: usize,
) -> Result<(Header, usize), ParseError>
    requires { depth ≤ 1000 }
    ensures tall { IfOk result (λ x. x.1 ≤ depth) }
    ensures reads { Reads (spec.maybe_header turns depth tokens.old) result tokens.new }
{
    if tokens.sees(LEFT_BRACE) {
        let found = Header {
            first: None,
            test: None,
        };
        return Ok((found, 0));
    }
    if !begins(tokens.peek()) {
        return Err(STRANGE);
    }
    if depth == 0 {
        return Err(DEEP);
    }
    header(alloc, tokens, turns, depth, false)
}

/// The last part of a `for`, where it is something. It may be one level too high, which shows at the `{`.
#[tactic(auto, unfolding(go_reading::specs::Stmts::last_part))]
fn last_part(
    alloc: Global,
    tokens: &mut Tokens<'_>,
    turns: usize,
    depth: usize,
) -> Result<(Option<Boxed<Stmt>>, usize), ParseError>
    requires { (0 < depth) × (depth ≤ 1000) }
    ensures tall { IfOk result (λ x. x.1 ≤ depth) }
    ensures reads { Reads (spec.last_part turns depth tokens.old) result tokens.new }
{
    if tokens.sees(LEFT_BRACE) {
        return Ok((None, 0));
    }
    let (found, height) = simple(alloc, tokens, turns, depth - 1)?;
    if !tokens.sees(LEFT_BRACE) {
        return Err(STRANGE);
    }
    if height > depth {
        return Err(DEEP);
    }
    Ok((Some(Boxed::new(alloc, found)?), height))
}

/// The parts of a `for`, from behind the first on.
#[tactic(auto, unfolding(go_reading::specs::Stmts::parts_head))]
fn parts_head(
    alloc: Global,
    tokens: &mut Tokens<'_>,
    turns: usize,
    depth: usize,
    first: Option<Boxed<Stmt>>,
    height: usize,
) -> Result<(ForHead, usize), ParseError>
    requires shallow { (0 < depth) × (depth ≤ 1000) }
    requires tall { height ≤ depth }
    ensures tall { IfOk result (λ x. x.1 ≤ depth) }
    ensures reads { Reads (spec.parts_head turns depth first height tokens.old) result tokens.new }
{
    tokens.expect(SEMICOLON)?;
    let (test, test_height) = maybe_before(alloc, tokens, turns, depth, SEMICOLON)?;
    tokens.expect(SEMICOLON)?;
    let (last, last_height) = last_part(alloc, tokens, turns, depth)?;
    let height = height.max(test_height).max(last_height);
    Ok((ForHead::Parts(first, test, last), height))
}

/// A range, from its `range` on.
#[tactic(auto, unfolding(go_reading::specs::Stmts::range_head))]
fn range_head(
    alloc: Global,
    tokens: &mut Tokens<'_>,
    turns: usize,
    depth: usize,
    names: Items<Name>,
) -> Result<(ForHead, usize), ParseError>
    requires { depth ≤ 1000 }
    ensures tall { IfOk result (λ x. x.1 ≤ depth) }
    ensures reads { Reads (spec.range_head turns depth names tokens.old) result tokens.new }
{
    tokens.expect(RANGE)?;
    let (over, height) = expr(alloc, tokens, turns, depth, 1)?;
    Ok((ForHead::Range(names, over), height))
}

/// What stands between `for` and its `{`, where an expression begins it.
fn for_front(
    alloc: Global,
    tokens: &mut Tokens<'_>,
    turns: usize,
    depth: usize,
) -> Result<(ForHead, usize), ParseError>
    requires { (0 < depth) × (depth ≤ 1000) }
    ensures tall { IfOk result (λ x. x.1 ≤ depth) }
    ensures reads { Reads (spec_for_front turns depth tokens.old) result tokens.new }
{
    let (first, height) = expr(alloc, tokens, turns, depth, 1)?;
    let (found, height) = lead(alloc, tokens, turns, depth - 1, true, first, height)?;
    match found {
        Lead::Expr(test) => {
            if !tokens.sees(SEMICOLON) {
                return Ok((ForHead::Test(Some(test)), height));
            }
            if height + 1 > depth {
                return Err(DEEP);
            }
            let first = Boxed::new(alloc, eval_stmt(test))?;
            parts_head(alloc, tokens, turns, depth, Some(first), height + 1)
        }
        Lead::Stmt(first) => {
            let first = Boxed::new(alloc, first)?;
            parts_head(alloc, tokens, turns, depth, Some(first), height)
        }
        Lead::Range(names) => range_head(alloc, tokens, turns, depth, names),
    }
}

/// What stands between `for` and its `{`.
#[tactic(auto, unfolding(go_reading::specs::Stmts::for_head))]
pub fn for_head(
    alloc: Global,
    tokens: &mut Tokens<'_>,
    turns: usize,
    depth: usize,
) -> Result<(ForHead, usize), ParseError>
    requires { (0 < depth) × (depth ≤ 1000) }
    ensures tall { IfOk result (λ x. x.1 ≤ depth) }
    ensures reads { Reads (spec.for_head turns depth tokens.old) result tokens.new }
{
    if tokens.sees(LEFT_BRACE) {
        return Ok((ForHead::Test(None), 0));
    }
    if tokens.sees(RANGE) {
        return range_head(alloc, tokens, turns, depth, Items::new(alloc));
    }
    if tokens.sees(SEMICOLON) {
        return parts_head(alloc, tokens, turns, depth, None, 0);
    }
    for_front(alloc, tokens, turns, depth)
}
