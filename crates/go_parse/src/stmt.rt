//! Statements and blocks.
ghost use Rattle.std.specs.Prelude.{◌≡◌, ◌≤◌, ◌<◌, ◌+◌, ◌-◌, max, [], IfOk};
ghost use Rattle.go_reading.specs.Input.{Reads};
ghost use Rattle.go_reading.specs.Stmts as spec;
ghost use Rattle.go_parse.specs.Parts as parts;
ghost use Rattle.go_grammar.specs.Blocks.{source};

use crate::bounds::Bounds;
use crate::clause::{case_head, comm_head, sees_clause};
use crate::cursor::Tokens;
use crate::expr::expr;
use crate::fault::{DEEP, EXHAUSTED, MANY, STRANGE};
use crate::head::header;
use crate::kind::{begins_stmt, ends_list};
use crate::leaf::leaf;
use crate::opening::{Opening, read_opening, sees_breakable, select_end, switch_end};
use crate::plain::{bare, lead, stmt_by};
use crate::stmt_node::{
    block_of, else_if_of, else_of, eval_stmt, for_of, if_of, label_of, nested_of,
};
use crate::targets::into_name;
use crate::words::{COLON, ELSE, IF, LEFT_BRACE, RIGHT_BRACE, SEMICOLON};
use go_ast::{CaseClause, CommClause, Stmt};
use go_reading::{Braced, Else, Header, ParseError};
use sqlite_items::Items;
use std::alloc::Global;

/// A statement with so many levels below it, and its height. A name alone may be one level too high, which shows at what
/// follows it.
#[cycle(stmt)]
fn stmt(
    alloc: Global,
    tokens: &mut Tokens<'_>,
    bounds: Bounds,
    depth: usize,
) -> Result<(Stmt, usize), ParseError>
    requires { depth < 1000 }
    ensures tall { IfOk result (λ x. x.1 ≤ depth + 2) }
    ensures reads { Reads (parts.stmt_at bounds.turns bounds.most depth tokens.old) result tokens.new }
{
    if tokens.sees(LEFT_BRACE) {
        if depth == 0 {
            return Err(DEEP);
        }
        let (found, height) = block(alloc, tokens, bounds, depth)?;
        return Ok((nested_of(found), height + 1));
    }
    if tokens.sees(IF) {
        return if_stmt(alloc, tokens, bounds, depth);
    }
    if sees_breakable(tokens) {
        return breakable(alloc, tokens, bounds, depth);
    }
    match leaf(alloc, tokens, bounds.turns, depth)? {
        Some(found) => Ok(found),
        None => plain_stmt(alloc, tokens, bounds, depth),
    }
}

/// A simple statement, or a label and its statement.
#[cycle(stmt)]
#[tactic(auto, using(crate::proofs::Levels::breakable_inner), unfolding(go_reading::specs::Stmts::plain_stmt))]
fn plain_stmt(
    alloc: Global,
    tokens: &mut Tokens<'_>,
    bounds: Bounds,
    depth: usize,
) -> Result<(Stmt, usize), ParseError>
    requires { depth < 1000 }
    ensures tall { IfOk result (λ x. x.1 ≤ depth + 2) }
    ensures reads { Reads (spec.plain_stmt bounds.turns depth (spec.breakable source bounds.turns bounds.most depth) tokens.old) result tokens.new }
{
    if depth == 0 {
        return bare(alloc, tokens, true);
    }
    let turns = bounds.turns;
    let (first, height) = expr(alloc, tokens, turns, depth, 1)?;
    if !tokens.sees(COLON) {
        let (found, height) = lead(alloc, tokens, turns, depth, false, first, height)?;
        return stmt_by(found, height);
    }
    let name = match into_name(first) {
        Ok(name) => name,
        Err(first) => return Ok((eval_stmt(first), height + 1)),
    };
    tokens.take();
    let (found, height) = breakable(alloc, tokens, bounds, depth - 1)?;
    Ok((label_of(alloc, name, found)?, height + 1))
}

/// Statements up to the token that ends them, and the greatest of their heights. No clause may follow those of a full `select`.
#[cycle(stmt)]
#[tactic(auto, using(crate::proofs::Levels::stmt_inner), unfolding(go_reading::specs::Stmts::list, go_reading::specs::Stmts::next_from, go_reading::specs::Stmts::stmts_from))]
fn list(
    alloc: Global,
    tokens: &mut Tokens<'_>,
    bounds: Bounds,
    depth: usize,
    clause: bool,
    full: bool,
) -> Result<(Items<Stmt>, usize), ParseError>
    requires { depth < 1000 }
    ensures tall { IfOk result (λ x. x.1 ≤ depth) }
    ensures reads { Reads (spec.list source bounds.turns depth (spec.stmt source bounds.turns bounds.most depth) clause full tokens.old) result tokens.new }
{
    let mut found = Items::new(alloc);
    if ends_list(clause, tokens.peek()) {
        return Ok((found, 0));
    }
    if !begins_stmt(tokens.peek()) {
        return Err(STRANGE);
    }
    if depth == 0 {
        return Err(DEEP);
    }
    let mut height = 0;
    for _turn in 0..bounds.turns {
        let (next, tall) = stmt(alloc, tokens, bounds, depth - 1)?;
        let goes_on = tokens.sees(SEMICOLON);
        if !goes_on && !ends_list(clause, tokens.peek()) {
            return Err(STRANGE);
        }
        if full && sees_clause(tokens) {
            return Err(MANY);
        }
        if tall > depth {
            return Err(DEEP);
        }
        found.push(next)?;
        height = height.max(tall);
        if !goes_on {
            return Ok((found, height));
        }
        tokens.take();
        if ends_list(clause, tokens.peek()) {
            return Ok((found, height));
        }
    }
    Err(EXHAUSTED)
}

/// A block, and its height.
#[cycle(stmt)]
#[tactic(auto, using(crate::proofs::Levels::block_inner), unfolding(go_reading::specs::Stmts::block, go_reading::specs::Stmts::block_in))]
pub fn block(
    alloc: Global,
    tokens: &mut Tokens<'_>,
    bounds: Bounds,
    depth: usize,
) -> Result<(Braced, usize), ParseError>
    requires { depth ≤ 1000 }
    ensures tall { IfOk result (λ x. x.1 ≤ depth) }
    ensures reads { Reads (spec.block source bounds.turns bounds.most depth tokens.old) result tokens.new }
{
    if depth == 0 {
        return Err(EXHAUSTED);
    }
    let left = tokens.expect(LEFT_BRACE)?;
    let (list, height) = list(alloc, tokens, bounds, depth - 1, false, false)?;
    let right = tokens.expect(RIGHT_BRACE)?;
    let block = block_of(left.start, right.start, list);
    let end = right.end;
    Ok((Braced { block, end }, height + 1))
}

/// An `if`, and its height.
#[cycle(stmt)]
#[tactic(auto, unfolding(crate::specs::Parts::if_at, go_reading::specs::Stmts::if_in))]
fn if_stmt(
    alloc: Global,
    tokens: &mut Tokens<'_>,
    bounds: Bounds,
    depth: usize,
) -> Result<(Stmt, usize), ParseError>
    requires { depth < 1000 }
    ensures tall { IfOk result (λ x. x.1 ≤ depth + 1) }
    ensures reads { Reads (parts.if_at bounds.turns bounds.most depth tokens.old) result tokens.new }
{
    if depth == 0 {
        return Err(DEEP);
    }
    let start = tokens.take();
    let (Header { first, test }, height) = header(alloc, tokens, bounds.turns, depth, true)?;
    let Some(test) = test else {
        return Err(STRANGE);
    };
    let (Braced { block: then, end }, then_height) = block(alloc, tokens, bounds, depth)?;
    let (rest, rest_height) = else_from(alloc, tokens, bounds, depth, end)?;
    let height = height.max(then_height.max(rest_height)) + 1;
    Ok((if_of(start.start, first, test, then, rest), height))
}

/// What follows the block of an `if` that ends at an offset.
#[cycle(stmt)]
#[tactic(auto, using(crate::proofs::Levels::hidden_inner), unfolding(go_reading::specs::Stmts::else_from))]
fn else_from(
    alloc: Global,
    tokens: &mut Tokens<'_>,
    bounds: Bounds,
    depth: usize,
    end: u32,
) -> Result<(Else, usize), ParseError>
    requires { (0 < depth) × (depth < 1000) }
    ensures tall { IfOk result (λ x. x.1 ≤ depth) }
    ensures reads { Reads (spec.else_from bounds.turns depth (spec.block source bounds.turns bounds.most depth) (spec.hidden source bounds.turns bounds.most depth) end tokens.old) result tokens.new }
{
    if !tokens.sees(ELSE) {
        return Ok((Else { other: None, end }, 0));
    }
    let after = tokens.take().end;
    if !tokens.sees(IF) {
        let (found, height) = block(alloc, tokens, bounds, depth)?;
        return Ok((else_of(after, found), height));
    }
    if depth < 3 {
        return Err(DEEP);
    }
    let (found, height) = if_stmt(alloc, tokens, bounds, depth - 2)?;
    Ok((else_if_of(alloc, after, found)?, height + 1))
}

/// A `for`, `switch` or `select`, and its height.
#[cycle(stmt)]
#[tactic(auto, using(crate::proofs::Opened::opened))]
fn breakable(
    alloc: Global,
    tokens: &mut Tokens<'_>,
    bounds: Bounds,
    depth: usize,
) -> Result<(Stmt, usize), ParseError>
    requires { depth < 1000 }
    ensures tall { IfOk result (λ x. x.1 ≤ depth + 1) }
    ensures reads { Reads (parts.breakable_at bounds.turns bounds.most depth tokens.old) result tokens.new }
{
    let (found, height) = read_opening(alloc, tokens, bounds.turns, depth)?;
    match found {
        Opening::For(start, head) => {
            let (body, tall) = block(alloc, tokens, bounds, depth)?;
            Ok((for_of(start, head, body), height.max(tall) + 1))
        }
        Opening::Switch(start, head, left) => {
            let (clauses, tall) = cases(alloc, tokens, bounds, depth)?;
            switch_end(tokens, start, head, left, clauses, height.max(tall))
        }
        Opening::Select(start, left) => {
            let (clauses, tall) = comms(alloc, tokens, bounds, depth)?;
            select_end(tokens, start, left, clauses, tall)
        }
    }
}

/// The clauses of a `switch`, and their height.
#[cycle(stmt)]
#[tactic(auto, unfolding(go_reading::specs::Stmts::cases_from, go_grammar::specs::Trees::case_node))]
fn cases(
    alloc: Global,
    tokens: &mut Tokens<'_>,
    bounds: Bounds,
    depth: usize,
) -> Result<(Items<CaseClause>, usize), ParseError>
    requires { depth < 1000 }
    ensures tall { IfOk result (λ x. x.1 ≤ depth) }
    ensures reads { Reads (spec.cases_from source bounds.turns depth (spec.stmt source bounds.turns bounds.most depth) bounds.turns [] 0 tokens.old) result tokens.new }
{
    let mut found = Items::new(alloc);
    let mut height = 0;
    for _turn in 0..bounds.turns {
        if !sees_clause(tokens) {
            return Ok((found, height));
        }
        let ((values, colon), head_height) = case_head(alloc, tokens, bounds.turns, depth)?;
        let (list, list_height) = list(alloc, tokens, bounds, depth, true, false)?;
        found.push(CaseClause {
            values,
            colon,
            list,
        })?;
        height = height.max(head_height.max(list_height));
    }
    Err(EXHAUSTED)
}

/// The clauses of a `select`, and their height.
#[cycle(stmt)]
#[tactic(auto, unfolding(go_reading::specs::Stmts::comms_from, go_grammar::specs::Trees::comm_node))]
fn comms(
    alloc: Global,
    tokens: &mut Tokens<'_>,
    bounds: Bounds,
    depth: usize,
) -> Result<(Items<CommClause>, usize), ParseError>
    requires { depth < 1000 }
    ensures tall { IfOk result (λ x. x.1 ≤ depth) }
    ensures reads { Reads (spec.comms_from source bounds.turns depth (spec.stmt source bounds.turns bounds.most depth) bounds.most bounds.turns [] 0 tokens.old) result tokens.new }
{
    let mut found = Items::new(alloc);
    let mut height = 0;
    for _turn in 0..bounds.turns {
        if !sees_clause(tokens) {
            return Ok((found, height));
        }
        if found.len() >= bounds.most {
            return Err(MANY);
        }
        let full = found.len() + 1 >= bounds.most;
        let ((comm, colon), head_height) = comm_head(alloc, tokens, bounds.turns, depth)?;
        let (list, list_height) = list(alloc, tokens, bounds, depth, true, full)?;
        found.push(CommClause { comm, colon, list })?;
        height = height.max(head_height.max(list_height));
    }
    Err(EXHAUSTED)
}
