//! Simple statements.
ghost use Rattle.std.specs.Prelude.{◌≡◌, ◌≤◌, ◌<◌, ◌+◌, max, [], ◌∷◌, IfOk, List, ℕ};
ghost use Rattle.go_grammar.specs.Trees as trees;
ghost use Rattle.go_grammar.specs.Words.{Word};
ghost use Rattle.go_reading.specs.Input.{Reads, kind_of};
ghost use Rattle.go_reading.specs.Kinds.{sign_of};
ghost use Rattle.go_reading.specs.Simple as spec;

use crate::cursor::Tokens;
use crate::ends::exprs_end;
use crate::expr::{expr, exprs};
use crate::fault::{DEEP, EXHAUSTED, STRANGE};
use crate::kind::{begins, goes_on, is, sign_of};
use crate::qualified::{into_expr, into_named_target, qualified_name};
use crate::stmt_node::{eval_stmt, stmt_of};
use crate::targets::{
    into_name, into_names, into_target, is_name_target, next_target, target_start,
};
use crate::words::{ASSIGN, COLON, COMMA, DEFINE, RANGE};
use go_ast::{BinaryOp, Expr, Name, Span, Stmt, StmtForm, Target, TokenKind};
use go_reading::{Lead, ParseError, Qualified, Sign};
use sqlite_items::Items;
use std::alloc::{AllocError, Global};

/// An assignment, from its `=` on.
#[tactic(auto, unfolding(go_reading::specs::Simple::assigned))]
fn assigned(
    alloc: Global,
    tokens: &mut Tokens<'_>,
    turns: usize,
    depth: usize,
    targets: Vec<Target>,
) -> Result<(Lead, usize), ParseError>
    requires { depth ≤ 1000 }
    ensures tall { IfOk result (λ x. x.1 ≤ depth + 1) }
    ensures reads { Reads (spec.assigned turns depth targets.items tokens.old) result tokens.new }
{
    if depth == 0 {
        return Err(DEEP);
    }
    tokens.take();
    let start = match targets.as_slice() {
        [] => 0,
        [first, ..] => target_start(first),
    };
    let (values, height) = exprs(alloc, tokens, turns, depth)?;
    let end = exprs_end(0, values.as_slice());
    let form = StmtForm::Assign(Items::from_vec(targets), values);
    Ok((Lead::Stmt(stmt_of(start, end, form)), height + 1))
}

/// The values of a definition, from behind its `:=` on.
#[tactic(auto, unfolding(go_reading::specs::Simple::defined_by))]
fn defined_by(
    alloc: Global,
    tokens: &mut Tokens<'_>,
    turns: usize,
    depth: usize,
    names: Items<Name>,
) -> Result<(Lead, usize), ParseError>
    requires { depth ≤ 1000 }
    ensures tall { IfOk result (λ x. x.1 ≤ depth + 1) }
    ensures reads { Reads (spec.defined_by turns depth names tokens.old) result tokens.new }
{
    let start = match names.as_slice() {
        [] => 0,
        [first, ..] => first.at,
    };
    let (values, height) = exprs(alloc, tokens, turns, depth)?;
    let end = exprs_end(0, values.as_slice());
    let form = StmtForm::Define(names, values);
    Ok((Lead::Stmt(stmt_of(start, end, form)), height + 1))
}

/// A definition, or the names of a range, from the `:=` on.
#[tactic(auto, unfolding(go_reading::specs::Simple::defined))]
fn defined(
    alloc: Global,
    tokens: &mut Tokens<'_>,
    turns: usize,
    depth: usize,
    ranges: bool,
    names: Items<Name>,
) -> Result<(Lead, usize), ParseError>
    requires { depth ≤ 1000 }
    ensures tall { IfOk result (λ x. x.1 ≤ depth + 1) }
    ensures reads { Reads (spec.defined turns depth ranges names tokens.old) result tokens.new }
{
    if !ranges {
        if depth == 0 {
            return Err(DEEP);
        }
        tokens.take();
        return defined_by(alloc, tokens, turns, depth, names);
    }
    tokens.take();
    if tokens.sees(RANGE) {
        return Ok((Lead::Range(names), 0));
    }
    if !begins(tokens.peek()) {
        return Err(STRANGE);
    }
    if depth == 0 {
        return Err(DEEP);
    }
    defined_by(alloc, tokens, turns, depth, names)
}

/// Further targets behind a comma, and what is assigned.
#[tactic(auto, unfolding(go_reading::specs::Simple::targets_from))]
fn targets(
    alloc: Global,
    tokens: &mut Tokens<'_>,
    turns: usize,
    depth: usize,
    ranges: bool,
    first: Vec<Target>,
) -> Result<(Lead, usize), ParseError>
    requires { depth ≤ 1000 }
    ensures tall { IfOk result (λ x. x.1 ≤ depth + 1) }
    ensures reads { Reads (spec.targets_from turns depth ranges turns first.items tokens.old) result tokens.new }
{
    let mut found = first;
    for _turn in 0..turns {
        found.push(next_target(alloc, tokens, depth)?)?;
        if !tokens.sees(COMMA) {
            return given(alloc, tokens, turns, depth, ranges, found);
        }
        tokens.take();
    }
    Err(EXHAUSTED)
}

/// What is assigned, from the sign behind the last of some targets on.
#[tactic(auto, unfolding(go_reading::specs::Simple::given))]
fn given(
    alloc: Global,
    tokens: &mut Tokens<'_>,
    turns: usize,
    depth: usize,
    ranges: bool,
    found: Vec<Target>,
) -> Result<(Lead, usize), ParseError>
    requires { depth ≤ 1000 }
    ensures tall { IfOk result (λ x. x.1 ≤ depth + 1) }
    ensures reads { Reads (spec.given turns depth ranges found.items tokens.old) result tokens.new }
{
    if tokens.sees(ASSIGN) {
        return assigned(alloc, tokens, turns, depth, found);
    }
    if !tokens.sees(DEFINE) {
        return Err(STRANGE);
    }
    match into_names(alloc, found)? {
        Some(names) => defined(alloc, tokens, turns, depth, ranges, names),
        None => Err(STRANGE),
    }
}

#[tactic(auto, unfolding(go_reading::specs::Simple::updated))]
fn updated(
    alloc: Global,
    tokens: &mut Tokens<'_>,
    turns: usize,
    depth: usize,
    target: Target,
    op: BinaryOp,
) -> Result<(Lead, usize), ParseError>
    requires { depth ≤ 1000 }
    ensures tall { IfOk result (λ x. x.1 ≤ depth + 1) }
    ensures reads { Reads (spec.updated turns depth target op tokens.old) result tokens.new }
{
    if depth == 0 {
        return Err(DEEP);
    }
    tokens.take();
    let (value, height) = expr(alloc, tokens, turns, depth, 1)?;
    let start = target_start(&target);
    let end = value.span.end;
    let form = StmtForm::Update(target, op, value);
    Ok((Lead::Stmt(stmt_of(start, end, form)), height + 1))
}

#[tactic(auto, unfolding(go_reading::specs::Simple::sent))]
fn sent(
    alloc: Global,
    tokens: &mut Tokens<'_>,
    turns: usize,
    depth: usize,
    channel: Expr,
    height: usize,
) -> Result<(Lead, usize), ParseError>
    requires { depth ≤ 1000 }
    ensures tall { IfOk result (λ x. x.1 ≤ depth + 1) }
    ensures reads { Reads (spec.sent turns depth (channel, height) tokens.old) result tokens.new }
{
    if height > depth {
        return Err(DEEP);
    }
    tokens.take();
    let (value, tall) = expr(alloc, tokens, turns, depth, 1)?;
    let start = channel.span.start;
    let end = value.span.end;
    let form = StmtForm::Send(channel, value);
    Ok((Lead::Stmt(stmt_of(start, end, form)), height.max(tall) + 1))
}

/// An expression before `++`.
fn raised(
    tokens: &mut Tokens<'_>,
    turns: usize,
    depth: usize,
    ranges: bool,
    first: Expr,
    height: usize,
) -> Result<(Lead, usize), ParseError>
    requires { height ≤ depth + 1 }
    ensures tall { IfOk result (λ x. x.1 ≤ depth + 1) }
    ensures reads { Reads (spec.target_by_sign turns depth ranges (first, height) Sign.Up (spec.target_of first) tokens.old) result tokens.new }
{
    match into_target(first) {
        Err(first) => Ok((Lead::Expr(first), height)),
        Ok(target) => {
            let start = target_start(&target);
            let end = tokens.take().end;
            Ok((Lead::Stmt(stmt_of(start, end, StmtForm::Up(target))), 1))
        }
    }
}

/// An expression before `--`.
fn lowered(
    tokens: &mut Tokens<'_>,
    turns: usize,
    depth: usize,
    ranges: bool,
    first: Expr,
    height: usize,
) -> Result<(Lead, usize), ParseError>
    requires { height ≤ depth + 1 }
    ensures tall { IfOk result (λ x. x.1 ≤ depth + 1) }
    ensures reads { Reads (spec.target_by_sign turns depth ranges (first, height) Sign.Down (spec.target_of first) tokens.old) result tokens.new }
{
    match into_target(first) {
        Err(first) => Ok((Lead::Expr(first), height)),
        Ok(target) => {
            let start = target_start(&target);
            let end = tokens.take().end;
            Ok((Lead::Stmt(stmt_of(start, end, StmtForm::Down(target))), 1))
        }
    }
}

/// An expression before the sign of an assignment with an operator.
fn maybe_updated(
    alloc: Global,
    tokens: &mut Tokens<'_>,
    turns: usize,
    depth: usize,
    ranges: bool,
    op: BinaryOp,
    first: Expr,
    height: usize,
) -> Result<(Lead, usize), ParseError>
    requires shallow { depth ≤ 1000 }
    requires tall { height ≤ depth + 1 }
    ensures tall { IfOk result (λ x. x.1 ≤ depth + 1) }
    ensures reads { Reads (spec.target_by_sign turns depth ranges (first, height) (Sign.Update op) (spec.target_of first) tokens.old) result tokens.new }
{
    match into_target(first) {
        Err(first) => Ok((Lead::Expr(first), height)),
        Ok(target) => updated(alloc, tokens, turns, depth, target, op),
    }
}

/// An expression before `=`.
fn maybe_assigned(
    alloc: Global,
    tokens: &mut Tokens<'_>,
    turns: usize,
    depth: usize,
    ranges: bool,
    first: Expr,
    height: usize,
) -> Result<(Lead, usize), ParseError>
    requires shallow { depth ≤ 1000 }
    requires tall { height ≤ depth + 1 }
    ensures tall { IfOk result (λ x. x.1 ≤ depth + 1) }
    ensures reads { Reads (spec.target_by_sign turns depth ranges (first, height) Sign.Assign (spec.target_of first) tokens.old) result tokens.new }
{
    match into_target(first) {
        Err(first) => Ok((Lead::Expr(first), height)),
        Ok(target) => assigned(alloc, tokens, turns, depth, one(alloc, target)?),
    }
}

/// An expression before `:=`.
#[tactic(auto, using(crate::proofs::Plains::not_defined))]
fn maybe_defined(
    alloc: Global,
    tokens: &mut Tokens<'_>,
    turns: usize,
    depth: usize,
    ranges: bool,
    first: Expr,
    height: usize,
) -> Result<(Lead, usize), ParseError>
    requires shallow { depth ≤ 1000 }
    requires tall { height ≤ depth + 1 }
    ensures tall { IfOk result (λ x. x.1 ≤ depth + 1) }
    ensures reads { Reads (spec.target_by_sign turns depth ranges (first, height) Sign.Define (spec.target_of first) tokens.old) result tokens.new }
{
    match into_name(first) {
        Err(first) => Ok((Lead::Expr(first), height)),
        Ok(name) => {
            let mut names = Items::new(alloc);
            names.push(name)?;
            defined(alloc, tokens, turns, depth, ranges, names)
        }
    }
}

/// Targets from a first on, whose `,` comes next. Behind names a range may come, which is no level.
#[tactic(auto, using(crate::proofs::Plains::comma_any))]
fn more_targets(
    alloc: Global,
    tokens: &mut Tokens<'_>,
    turns: usize,
    depth: usize,
    ranges: bool,
    target: Target,
) -> Result<(Lead, usize), ParseError>
    requires { depth ≤ 1000 }
    ensures tall { IfOk result (λ x. x.1 ≤ depth + 1) }
    ensures reads { Reads (spec.comma_by turns depth ranges target (spec.plain_of target) tokens.old) result tokens.new }
{
    let may_range = ranges && is_name_target(&target);
    if depth == 0 && !may_range {
        return Err(DEEP);
    }
    tokens.take();
    targets(alloc, tokens, turns, depth, ranges, one(alloc, target)?)
}

/// An expression before a `,`.
fn maybe_more(
    alloc: Global,
    tokens: &mut Tokens<'_>,
    turns: usize,
    depth: usize,
    ranges: bool,
    first: Expr,
    height: usize,
) -> Result<(Lead, usize), ParseError>
    requires shallow { depth ≤ 1000 }
    requires tall { height ≤ depth + 1 }
    ensures tall { IfOk result (λ x. x.1 ≤ depth + 1) }
    ensures reads { Reads (spec.target_by_sign turns depth ranges (first, height) Sign.Comma (spec.target_of first) tokens.old) result tokens.new }
{
    match into_target(first) {
        Err(first) => Ok((Lead::Expr(first), height)),
        Ok(target) => more_targets(alloc, tokens, turns, depth, ranges, target),
    }
}

fn one(alloc: Global, target: Target) -> Result<Vec<Target>, AllocError>
    ensures { IfOk result (λ found. found.items ≡ target ∷ []) }
{
    let mut found = Vec::new(alloc);
    found.push(target)?;
    Ok(found)
}

/// What an expression at the front of a statement is part of.
#[tactic(auto, unfolding(go_reading::specs::Simple::lead))]
pub fn lead(
    alloc: Global,
    tokens: &mut Tokens<'_>,
    turns: usize,
    depth: usize,
    ranges: bool,
    first: Expr,
    height: usize,
) -> Result<(Lead, usize), ParseError>
    requires shallow { depth ≤ 1000 }
    requires tall { height ≤ depth + 1 }
    ensures tall { IfOk result (λ x. x.1 ≤ depth + 1) }
    ensures reads { Reads (spec.lead turns depth ranges (first, height) tokens.old) result tokens.new }
{
    match sign_of(tokens.peek()) {
        Sign::Up => raised(tokens, turns, depth, ranges, first, height),
        Sign::Down => lowered(tokens, turns, depth, ranges, first, height),
        Sign::Arrow => sent(alloc, tokens, turns, depth, first, height),
        Sign::Update(op) => {
            maybe_updated(alloc, tokens, turns, depth, ranges, op, first, height)
        }
        Sign::Assign => maybe_assigned(alloc, tokens, turns, depth, ranges, first, height),
        Sign::Define => maybe_defined(alloc, tokens, turns, depth, ranges, first, height),
        Sign::Comma => maybe_more(alloc, tokens, turns, depth, ranges, first, height),
        Sign::Other => Ok((Lead::Expr(first), height)),
    }
}

/// A statement of which no part is an expression, or a name that is one level too high.
#[tactic(auto, unfolding(go_reading::specs::Simple::bare))]
pub fn bare(
    alloc: Global,
    tokens: &mut Tokens<'_>,
    labels: bool,
) -> Result<(Stmt, usize), ParseError>
    ensures tall { IfOk result (λ x. x.1 ≤ 2) }
    ensures reads { Reads (spec.bare labels tokens.old) result tokens.new }
{
    if !tokens.sees(TokenKind::Name) {
        return Err(if begins(tokens.peek()) { DEEP } else { STRANGE });
    }
    let found = qualified_name(alloc, tokens, 1)?;
    by_bare(tokens, labels, found)
}

/// What follows such a name.
fn by_bare(
    tokens: &mut Tokens<'_>,
    labels: bool,
    found: Qualified,
) -> Result<(Stmt, usize), ParseError>
    ensures tall { IfOk result (λ x. x.1 ≤ 2) }
    ensures reads { Reads (spec.by_bare labels found (kind_of tokens.old) (sign_of (kind_of tokens.old)) tokens.old) result tokens.new }
{
    let kind = tokens.peek();
    let start = found.name.at;
    let is_plain = found.member.is_none();
    match sign_of(kind) {
        Sign::Up => {
            let end = tokens.take().end;
            Ok((
                stmt_of(start, end, StmtForm::Up(into_named_target(found))),
                1,
            ))
        }
        Sign::Down => {
            let end = tokens.take().end;
            Ok((
                stmt_of(start, end, StmtForm::Down(into_named_target(found))),
                1,
            ))
        }
        Sign::Define if !is_plain => Ok((eval_stmt(into_expr(found)), 2)),
        Sign::Other if !goes_on(kind) && !(labels && is_plain && is(kind, COLON)) => {
            Ok((eval_stmt(into_expr(found)), 2))
        }
        _ => Err(DEEP),
    }
}

/// The statement that a lead is. A range is none.
pub fn stmt_by(lead: Lead, height: usize) -> Result<(Stmt, usize), ParseError>
    requires { height ≤ 1000 }
    ensures tall { IfOk result (λ x. x.1 ≤ height + 1) }
    ensures reads { (ts : List Word) → Reads (spec.stmt_by (lead, height) ts) result ts }
{
    match lead {
        Lead::Expr(tree) => Ok((eval_stmt(tree), height + 1)),
        Lead::Stmt(found) => Ok((found, height)),
        Lead::Range(_) => Err(STRANGE),
    }
}

/// A simple statement whose expressions may have so many levels.
#[tactic(auto, unfolding(go_reading::specs::Simple::simple))]
pub fn simple(
    alloc: Global,
    tokens: &mut Tokens<'_>,
    turns: usize,
    depth: usize,
) -> Result<(Stmt, usize), ParseError>
    requires { depth < 1000 }
    ensures tall { IfOk result (λ x. x.1 ≤ depth + 2) }
    ensures reads { Reads (spec.simple turns depth tokens.old) result tokens.new }
{
    if depth == 0 {
        return bare(alloc, tokens, false);
    }
    let (first, height) = expr(alloc, tokens, turns, depth, 1)?;
    let (found, height) = lead(alloc, tokens, turns, depth, false, first, height)?;
    stmt_by(found, height)
}
