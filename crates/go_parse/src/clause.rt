//! Clauses of `switch` and `select`, up to their colons.
ghost use Rattle.std.specs.Prelude.{◌≡◌, ◌≤◌, ◌<◌, IfOk};
ghost use Rattle.go_reading.specs.Input.{Reads, kind_of};
ghost use Rattle.go_reading.specs.Stmts as spec;

use crate::comm::comm_in;
use crate::cursor::Tokens;
use crate::expr::exprs;
use crate::fault::DEEP;
use crate::words::{CASE, COLON, DEFAULT};
use go_ast::{Comm, Expr};
use go_reading::ParseError;
use sqlite_items::Items;
use std::alloc::Global;

/// Whether a clause comes next.
pub fn sees_clause(tokens: &Tokens<'_>) -> bool
    ensures { result ≡ spec.begins_clause (kind_of tokens.now) }
{
    tokens.sees(CASE) || tokens.sees(DEFAULT)
}

/// The values of a clause of a `switch`, the offset of its colon, and its height.
#[tactic(auto, unfolding(go_reading::specs::Stmts::case_head))]
pub fn case_head(
    alloc: Global,
    tokens: &mut Tokens<'_>,
    turns: usize,
    depth: usize,
) -> Result<((Option<Items<Expr>>, u32), usize), ParseError>
    requires { depth ≤ 1000 }
    ensures tall { IfOk result (λ x. x.1 ≤ depth) }
    ensures reads { Reads (spec.case_head turns depth tokens.old) result tokens.new }
{
    if !tokens.sees(CASE) {
        tokens.take();
        let colon = tokens.expect(COLON)?;
        return Ok(((None, colon.start), 0));
    }
    if depth == 0 {
        return Err(DEEP);
    }
    tokens.take();
    let (values, height) = exprs(alloc, tokens, turns, depth)?;
    let colon = tokens.expect(COLON)?;
    Ok(((Some(values), colon.start), height))
}

/// What a clause of a `select` waits for, the offset of its colon, and its height.
#[tactic(auto, unfolding(go_reading::specs::Stmts::comm_head))]
pub fn comm_head(
    alloc: Global,
    tokens: &mut Tokens<'_>,
    turns: usize,
    depth: usize,
) -> Result<((Comm, u32), usize), ParseError>
    requires { depth ≤ 1000 }
    ensures tall { IfOk result (λ x. x.1 ≤ depth) }
    ensures reads { Reads (spec.comm_head turns depth tokens.old) result tokens.new }
{
    if !tokens.sees(CASE) {
        tokens.take();
        let colon = tokens.expect(COLON)?;
        return Ok(((Comm::Default, colon.start), 0));
    }
    if depth == 0 {
        return Err(DEEP);
    }
    tokens.take();
    let (comm, height) = comm_in(alloc, tokens, turns, depth)?;
    let colon = tokens.expect(COLON)?;
    Ok(((comm, colon.start), height))
}
