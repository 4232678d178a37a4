//! What stands before the block or the clauses of a `for`, `switch` or `select`, and what follows the clauses.
ghost use Rattle.std.specs.Prelude.{◌≡◌, ◌≤◌, ◌<◌, ◌+◌, IfOk};
ghost use Rattle.go_reading.specs.Input.{Reads};
ghost use Rattle.go_reading.specs.Input.{kind_of};
ghost use Rattle.go_parse.specs.Openings as spec;
ghost use Rattle.go_parse.specs.Parts.{begins_breakable};

use crate::cursor::Tokens;
use crate::fault::{DEEP, STRANGE};
use crate::head::{for_head, maybe_header};
use crate::stmt_node::{stmt_of, switch_of};
use crate::words::{FOR, LEFT_BRACE, RIGHT_BRACE, SELECT, SWITCH};
use go_ast::{CaseClause, CommClause, Stmt, StmtForm};
use go_reading::{ForHead, Header, ParseError};
use sqlite_items::Items;
use std::alloc::Global;

/// A `for` up to its block, or a `switch` or `select` up to its clauses. The numbers are offsets, of its word and then of its brace.
#[derive(Drop)]
pub enum Opening {
    For(u32, ForHead),
    Switch(u32, Header, u32),
    Select(u32, u32),
}

/// Whether a `for`, `switch` or `select` comes next.
pub fn sees_breakable(tokens: &Tokens<'_>) -> bool
    ensures { result ≡ begins_breakable (kind_of tokens.now) }
{
    tokens.sees(FOR) || tokens.sees(SWITCH) || tokens.sees(SELECT)
}

#[tactic(auto, unfolding(crate::specs::Openings::for_opening))]
fn for_opening(
    alloc: Global,
    tokens: &mut Tokens<'_>,
    turns: usize,
    depth: usize,
) -> Result<(Opening, usize), ParseError>
    requires { depth ≤ 1000 }
    ensures tall { IfOk result (λ x. x.1 ≤ depth) }
    ensures reads { Reads (spec.for_opening turns depth tokens.old) result tokens.new }
{
    if depth == 0 {
        return Err(DEEP);
    }
    let start = tokens.take().start;
    let (head, height) = for_head(alloc, tokens, turns, depth)?;
    Ok((Opening::For(start, head), height))
}

#[tactic(auto, unfolding(crate::specs::Openings::switch_opening))]
fn switch_opening(
    alloc: Global,
    tokens: &mut Tokens<'_>,
    turns: usize,
    depth: usize,
) -> Result<(Opening, usize), ParseError>
    requires { depth ≤ 1000 }
    ensures tall { IfOk result (λ x. x.1 ≤ depth) }
    ensures reads { Reads (spec.switch_opening turns depth tokens.old) result tokens.new }
{
    let start = tokens.take().start;
    let (head, height) = maybe_header(alloc, tokens, turns, depth)?;
    let left = tokens.expect(LEFT_BRACE)?;
    Ok((Opening::Switch(start, head, left.start), height))
}

#[tactic(auto, unfolding(crate::specs::Openings::select_opening))]
fn select_opening(tokens: &mut Tokens<'_>) -> Result<(Opening, usize), ParseError>
    ensures tall { IfOk result (λ x. x.1 ≡ 0) }
    ensures reads { Reads (spec.select_opening tokens.old) result tokens.new }
{
    let start = tokens.take().start;
    let left = tokens.expect(LEFT_BRACE)?;
    Ok((Opening::Select(start, left.start), 0))
}

/// A `for` up to its block, or a `switch` or `select` up to its clauses, and its height so far.
#[tactic(auto, unfolding(crate::specs::Openings::opening))]
pub fn read_opening(
    alloc: Global,
    tokens: &mut Tokens<'_>,
    turns: usize,
    depth: usize,
) -> Result<(Opening, usize), ParseError>
    requires { depth ≤ 1000 }
    ensures tall { IfOk result (λ x. x.1 ≤ depth) }
    ensures reads { Reads (spec.opening turns depth tokens.old) result tokens.new }
{
    if tokens.sees(FOR) {
        return for_opening(alloc, tokens, turns, depth);
    }
    if tokens.sees(SWITCH) {
        return switch_opening(alloc, tokens, turns, depth);
    }
    if tokens.sees(SELECT) {
        return select_opening(tokens);
    }
    Err(STRANGE)
}

/// A `switch`, from behind its clauses on, and its height, by that of its parts.
#[tactic(auto, unfolding(crate::specs::Openings::switch_end))]
pub fn switch_end(
    tokens: &mut Tokens<'_>,
    start: u32,
    head: Header,
    left: u32,
    clauses: Items<CaseClause>,
    height: usize,
) -> Result<(Stmt, usize), ParseError>
    requires { height ≤ 1000 }
    ensures tall { IfOk result (λ x. x.1 ≡ height + 1) }
    ensures reads { Reads (spec.switch_end start head left clauses height tokens.old) result tokens.new }
{
    let right = tokens.expect(RIGHT_BRACE)?;
    let found = switch_of(start, head, left, clauses, right.end);
    Ok((found, height + 1))
}

/// A `select`, from behind its clauses on, and its height, by theirs.
#[tactic(auto, unfolding(crate::specs::Openings::select_end))]
pub fn select_end(
    tokens: &mut Tokens<'_>,
    start: u32,
    left: u32,
    clauses: Items<CommClause>,
    height: usize,
) -> Result<(Stmt, usize), ParseError>
    requires { height ≤ 1000 }
    ensures tall { IfOk result (λ x. x.1 ≡ height + 1) }
    ensures reads { Reads (spec.select_end start left clauses height tokens.old) result tokens.new }
{
    let right = tokens.expect(RIGHT_BRACE)?;
    let form = StmtForm::Select { left, clauses };
    Ok((stmt_of(start, right.end, form), height + 1))
}
