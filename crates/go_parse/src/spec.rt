//! Constants and variables.
ghost use Rattle.std.specs.Prelude.{◌≡◌, ◌≤◌, ◌<◌, ◌+◌, max, [], IfOk};
ghost use Rattle.go_grammar.specs.Trees as trees;
ghost use Rattle.go_reading.specs.Input.{Reads};
ghost use Rattle.go_grammar.specs.Terminals as t;
ghost use Rattle.go_reading.specs.Lists.{group_list};
ghost use Rattle.go_reading.specs.Specs as spec;

use crate::cursor::Tokens;
use crate::ends::var_end;
use crate::expr::{expr, exprs};
use crate::fault::{DEEP, EXHAUSTED, STRANGE};
use crate::names::names;
use crate::types::maybe_type;
use crate::words::{ASSIGN, LEFT_PARENTHESIS, RIGHT_PARENTHESIS, SEMICOLON};
use go_ast::{ConstSpec, Name, TokenKind, TypeExpr, VarSpec};
use go_reading::ParseError;
use sqlite_items::Items;
use std::alloc::Global;

/// A constant, and its height.
#[tactic(auto, unfolding(go_reading::specs::Specs::const_spec))]
fn const_spec(
    alloc: Global,
    tokens: &mut Tokens<'_>,
    turns: usize,
    depth: usize,
) -> Result<(ConstSpec, usize), ParseError>
    requires { depth ≤ 1000 }
    ensures tall { IfOk result (λ x. x.1 ≤ depth) }
    ensures reads { Reads (spec.const_spec turns depth tokens.old) result tokens.new }
{
    let (name, _) = tokens.expect_name(alloc)?;
    let (kind, height) = maybe_type(alloc, tokens, depth)?;
    tokens.expect(ASSIGN)?;
    let (value, tall) = expr(alloc, tokens, turns, depth, 1)?;
    Ok((ConstSpec { name, kind, value }, height.max(tall)))
}

/// The constants of a declaration, the offset of their end, and their height.
#[tactic(auto, unfolding(go_reading::specs::Specs::consts, go_reading::specs::Lists::group_of))]
pub fn consts(
    alloc: Global,
    tokens: &mut Tokens<'_>,
    turns: usize,
    depth: usize,
) -> Result<((Items<ConstSpec>, u32), usize), ParseError>
    requires { depth ≤ 1000 }
    ensures tall { IfOk result (λ x. x.1 ≤ depth) }
    ensures reads { Reads (spec.consts turns depth tokens.old) result tokens.new }
{
    if tokens.sees(LEFT_PARENTHESIS) {
        tokens.take();
        let (found, height) = const_list(alloc, tokens, turns, depth)?;
        let right = tokens.expect(RIGHT_PARENTHESIS)?;
        return Ok(((found, right.end), height));
    }
    if !tokens.sees(TokenKind::Name) {
        return Err(STRANGE);
    }
    if depth == 0 {
        return Err(DEEP);
    }
    let (found, height) = const_spec(alloc, tokens, turns, depth)?;
    let end = found.value.span.end;
    let mut list = Items::new(alloc);
    list.push(found)?;
    Ok(((list, end), height))
}

#[tactic(auto, unfolding(go_reading::specs::Lists::group_list, go_reading::specs::Lists::list_from))]
fn const_list(
    alloc: Global,
    tokens: &mut Tokens<'_>,
    turns: usize,
    depth: usize,
) -> Result<(Items<ConstSpec>, usize), ParseError>
    requires { depth ≤ 1000 }
    ensures tall { IfOk result (λ x. x.1 ≤ depth) }
    ensures reads { Reads (group_list TokenKind.Name depth (spec.const_spec turns depth) turns tokens.old) result tokens.new }
{
    let mut found = Items::new(alloc);
    if tokens.sees(RIGHT_PARENTHESIS) {
        return Ok((found, 0));
    }
    if !tokens.sees(TokenKind::Name) {
        return Err(STRANGE);
    }
    if depth == 0 {
        return Err(DEEP);
    }
    let mut height = 0;
    for _turn in 0..turns {
        let (next, tall) = const_spec(alloc, tokens, turns, depth)?;
        found.push(next)?;
        height = height.max(tall);
        if !tokens.sees(SEMICOLON) {
            return Ok((found, height));
        }
        tokens.take();
        if tokens.sees(RIGHT_PARENTHESIS) {
            return Ok((found, height));
        }
    }
    Err(EXHAUSTED)
}

/// The values of variables, from their `=` on.
#[tactic(auto, unfolding(go_reading::specs::Specs::values_of))]
fn values_of(
    alloc: Global,
    tokens: &mut Tokens<'_>,
    turns: usize,
    depth: usize,
    names: Items<Name>,
    kind: Option<TypeExpr>,
    height: usize,
) -> Result<(VarSpec, usize), ParseError>
    requires shallow { depth ≤ 1000 }
    requires tall { height ≤ depth }
    ensures tall { IfOk result (λ x. x.1 ≤ depth) }
    ensures reads { Reads (spec.values_of turns depth names (kind, height) tokens.old) result tokens.new }
{
    tokens.expect(ASSIGN)?;
    let (values, tall) = exprs(alloc, tokens, turns, depth)?;
    let found = VarSpec {
        names,
        kind,
        values,
    };
    Ok((found, height.max(tall)))
}

/// Variables, and their height.
#[tactic(auto, unfolding(go_reading::specs::Specs::var_spec))]
fn var_spec(
    alloc: Global,
    tokens: &mut Tokens<'_>,
    turns: usize,
    depth: usize,
) -> Result<(VarSpec, usize), ParseError>
    requires { depth ≤ 1000 }
    ensures tall { IfOk result (λ x. x.1 ≤ depth) }
    ensures reads { Reads (spec.var_spec turns depth tokens.old) result tokens.new }
{
    let names = names(alloc, tokens, turns)?;
    let (kind, height) = maybe_type(alloc, tokens, depth)?;
    if kind.is_none() || tokens.sees(ASSIGN) {
        return values_of(alloc, tokens, turns, depth, names, kind, height);
    }
    let found = VarSpec {
        names,
        kind,
        values: Items::new(alloc),
    };
    Ok((found, height))
}

/// The variables of a declaration, the offset of their end, and their height.
#[tactic(auto, unfolding(go_reading::specs::Specs::vars, go_reading::specs::Lists::group_of))]
pub fn vars(
    alloc: Global,
    tokens: &mut Tokens<'_>,
    turns: usize,
    depth: usize,
) -> Result<((Items<VarSpec>, u32), usize), ParseError>
    requires { depth ≤ 1000 }
    ensures tall { IfOk result (λ x. x.1 ≤ depth) }
    ensures reads { Reads (spec.vars turns depth tokens.old) result tokens.new }
{
    if tokens.sees(LEFT_PARENTHESIS) {
        tokens.take();
        let (found, height) = var_list(alloc, tokens, turns, depth)?;
        let right = tokens.expect(RIGHT_PARENTHESIS)?;
        return Ok(((found, right.end), height));
    }
    if !tokens.sees(TokenKind::Name) {
        return Err(STRANGE);
    }
    if depth == 0 {
        return Err(DEEP);
    }
    let (found, height) = var_spec(alloc, tokens, turns, depth)?;
    let end = var_end(&found);
    let mut list = Items::new(alloc);
    list.push(found)?;
    Ok(((list, end), height))
}

#[tactic(auto, unfolding(go_reading::specs::Lists::group_list, go_reading::specs::Lists::list_from))]
fn var_list(
    alloc: Global,
    tokens: &mut Tokens<'_>,
    turns: usize,
    depth: usize,
) -> Result<(Items<VarSpec>, usize), ParseError>
    requires { depth ≤ 1000 }
    ensures tall { IfOk result (λ x. x.1 ≤ depth) }
    ensures reads { Reads (group_list TokenKind.Name depth (spec.var_spec turns depth) turns tokens.old) result tokens.new }
{
    let mut found = Items::new(alloc);
    if tokens.sees(RIGHT_PARENTHESIS) {
        return Ok((found, 0));
    }
    if !tokens.sees(TokenKind::Name) {
        return Err(STRANGE);
    }
    if depth == 0 {
        return Err(DEEP);
    }
    let mut height = 0;
    for _turn in 0..turns {
        let (next, tall) = var_spec(alloc, tokens, turns, depth)?;
        found.push(next)?;
        height = height.max(tall);
        if !tokens.sees(SEMICOLON) {
            return Ok((found, height));
        }
        tokens.take();
        if tokens.sees(RIGHT_PARENTHESIS) {
            return Ok((found, height));
        }
    }
    Err(EXHAUSTED)
}
