//! What a clause of a `select` waits for.
ghost use Rattle.std.specs.Prelude.{◌≡◌, ◌≤◌, ◌<◌, ◌+◌, max, [], ◌∷◌, IfOk};
ghost use Rattle.go_grammar.specs.Trees as trees;
ghost use Rattle.go_reading.specs.Input.{Reads};
ghost use Rattle.go_reading.specs.Stmts as spec;

use crate::cursor::Tokens;
use crate::expr::{climb, expr};
use crate::fault::{DEEP, EXHAUSTED, STRANGE};
use crate::kind::{binary_op, is};
use crate::node::unary_node;
use crate::targets::{into_names, into_target, next_target};
use crate::words::{ARROW, ASSIGN, COLON, COMMA, DEFINE};
use go_ast::{Comm, Expr, Name, Span, Target, UnaryOp};
use go_reading::ParseError;
use sqlite_items::Items;
use std::alloc::Global;

/// The channel of a receive, from its `<-` on.
#[tactic(auto, unfolding(go_reading::specs::Stmts::take_channel))]
fn take_channel(
    alloc: Global,
    tokens: &mut Tokens<'_>,
    turns: usize,
    depth: usize,
) -> Result<(Expr, usize), ParseError>
    requires { depth ≤ 1000 }
    ensures tall { IfOk result (λ x. x.1 ≤ depth) }
    ensures reads { Reads (spec.take_channel turns depth tokens.old) result tokens.new }
{
    tokens.expect(ARROW)?;
    expr(alloc, tokens, turns, depth, 6)
}

/// The value of a send, from its `<-` on.
#[tactic(auto, unfolding(go_reading::specs::Stmts::send_comm))]
fn send_comm(
    alloc: Global,
    tokens: &mut Tokens<'_>,
    turns: usize,
    depth: usize,
    channel: Expr,
    height: usize,
) -> Result<(Comm, usize), ParseError>
    requires shallow { depth ≤ 1000 }
    requires tall { height ≤ depth }
    ensures tall { IfOk result (λ x. x.1 ≤ depth) }
    ensures reads { Reads (spec.send_comm turns depth (channel, height) tokens.old) result tokens.new }
{
    tokens.expect(ARROW)?;
    let (value, tall) = expr(alloc, tokens, turns, depth, 1)?;
    Ok((Comm::Send(channel, value), height.max(tall)))
}

/// Targets and the receive that they take, from behind the first on.
#[tactic(auto, unfolding(go_reading::specs::Stmts::comm_targets))]
fn comm_targets(
    alloc: Global,
    tokens: &mut Tokens<'_>,
    turns: usize,
    depth: usize,
    first: Target,
) -> Result<(Comm, usize), ParseError>
    requires { depth ≤ 1000 }
    ensures tall { IfOk result (λ x. x.1 ≤ depth) }
    ensures reads { Reads (spec.comm_targets turns depth turns (first ∷ []) tokens.old) result tokens.new }
{
    let mut found = Vec::new(alloc);
    found.push(first)?;
    for _turn in 0..turns {
        if !tokens.sees(COMMA) {
            return comm_taken(alloc, tokens, turns, depth, found);
        }
        tokens.take();
        found.push(next_target(alloc, tokens, 1)?)?;
    }
    Err(EXHAUSTED)
}

/// The receive that some targets take, from the sign behind them on.
#[tactic(auto, unfolding(go_reading::specs::Stmts::comm_taken))]
fn comm_taken(
    alloc: Global,
    tokens: &mut Tokens<'_>,
    turns: usize,
    depth: usize,
    found: Vec<Target>,
) -> Result<(Comm, usize), ParseError>
    requires { depth ≤ 1000 }
    ensures tall { IfOk result (λ x. x.1 ≤ depth) }
    ensures reads { Reads (spec.comm_taken turns depth found.items tokens.old) result tokens.new }
{
    if tokens.sees(ASSIGN) {
        tokens.take();
        let (channel, height) = take_channel(alloc, tokens, turns, depth)?;
        let targets = Items::from_vec(found);
        return Ok((Comm::Take { targets, channel }, height));
    }
    if !tokens.sees(DEFINE) {
        return Err(STRANGE);
    }
    let Some(names) = into_names(alloc, found)? else {
        return Err(STRANGE);
    };
    tokens.take();
    let (channel, height) = take_channel(alloc, tokens, turns, depth)?;
    Ok((Comm::TakeNew { names, channel }, height))
}

/// A receive, or a send over a channel that begins with `<-`, from behind that on.
#[tactic(auto, unfolding(go_reading::specs::Stmts::received))]
fn received(
    alloc: Global,
    tokens: &mut Tokens<'_>,
    turns: usize,
    depth: usize,
    start: Span,
    channel: Expr,
    height: usize,
) -> Result<(Comm, usize), ParseError>
    requires shallow { (0 < depth) × (depth ≤ 1000) }
    requires tall { height ≤ depth }
    ensures tall { IfOk result (λ x. x.1 ≤ depth) }
    ensures reads { Reads (spec.received turns depth start (channel, height) tokens.old) result tokens.new }
{
    if tokens.sees(COLON) {
        let targets = Items::new(alloc);
        return Ok((Comm::Take { targets, channel }, height));
    }
    let kind = tokens.peek();
    if !is(kind, ARROW) && binary_op(kind).is_none() {
        return Err(STRANGE);
    }
    if height + 1 > depth {
        return Err(DEEP);
    }
    let first = unary_node(alloc, start, UnaryOp::Receive, channel)?;
    let (channel, height) = climb(alloc, tokens, turns, depth - 1, 1, first, height + 1)?;
    send_comm(alloc, tokens, turns, depth, channel, height)
}

/// What a clause waits for, from behind its `case` on.
#[tactic(auto, unfolding(go_reading::specs::Stmts::comm_in))]
pub fn comm_in(
    alloc: Global,
    tokens: &mut Tokens<'_>,
    turns: usize,
    depth: usize,
) -> Result<(Comm, usize), ParseError>
    requires { (0 < depth) × (depth ≤ 1000) }
    ensures tall { IfOk result (λ x. x.1 ≤ depth) }
    ensures reads { Reads (spec.comm_in turns depth tokens.old) result tokens.new }
{
    if tokens.sees(ARROW) {
        let start = tokens.take();
        let (channel, height) = expr(alloc, tokens, turns, depth, 6)?;
        return received(alloc, tokens, turns, depth, start, channel, height);
    }
    let (first, height) = expr(alloc, tokens, turns, depth, 1)?;
    if tokens.sees(ARROW) {
        return send_comm(alloc, tokens, turns, depth, first, height);
    }
    match into_target(first) {
        Ok(target) => comm_targets(alloc, tokens, turns, depth, target),
        Err(_) => Err(STRANGE),
    }
}
