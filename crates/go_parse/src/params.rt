//! Parameters and results of functions.
ghost use Rattle.std.specs.Prelude.{◌≡◌, ◌≤◌, ◌<◌, ◌+◌, ◌++◌, max, [], IfOk, OnOk};
ghost use Rattle.go_grammar.specs.Decls.{params_of};
ghost use Rattle.go_grammar.specs.Terminals as t;
ghost use Rattle.go_reading.specs.Input.{Reads};
ghost use Rattle.go_reading.specs.Lists.{list_from};
ghost use Rattle.go_reading.specs.Types.{type_};
ghost use Rattle.go_reading.specs.Decls as spec;

use crate::cursor::Tokens;
use crate::fault::EXHAUSTED;
use crate::kind::begins_type;
use crate::names::names;
use crate::types::{copy_type, type_expr};
use crate::words::{COMMA, LEFT_PARENTHESIS, RIGHT_PARENTHESIS};
use go_ast::{Name, Param, TypeExpr};
use go_reading::ParseError;
use sqlite_items::Items;
use std::alloc::{AllocError, Global};

/// Adds parameters of one type.
fn add_params(
    alloc: Global,
    found: &mut Items<Param>,
    mut names: Items<Name>,
    kind: TypeExpr,
) -> Result<(), AllocError>
    ensures { OnOk result (found.new ≡ found.old ++ params_of names kind) }
{
    let mut added = Vec::new(alloc);
    while let Some(name) = names.pop() {
        added.push(Param {
            name,
            kind: copy_type(alloc, &kind)?,
        })?;
    }
    added.reverse();
    found.append(Items::from_vec(added))
}

/// The parameters of a function up to the `)`, and their height.
#[tactic(auto, unfolding(go_reading::specs::Decls::params_from))]
fn params_from(
    alloc: Global,
    tokens: &mut Tokens<'_>,
    turns: usize,
    depth: usize,
) -> Result<(Items<Param>, usize), ParseError>
    requires { depth ≤ 1000 }
    ensures tall { IfOk result (λ x. x.1 ≤ depth) }
    ensures reads { Reads (spec.params_from turns depth turns [] 0 tokens.old) result tokens.new }
{
    let mut found = Items::new(alloc);
    let mut height = 0;
    for _turn in 0..turns {
        let names = names(alloc, tokens, turns)?;
        let (kind, tall) = type_expr(alloc, tokens, depth)?;
        add_params(alloc, &mut found, names, kind)?;
        height = height.max(tall);
        if !tokens.sees(COMMA) {
            return Ok((found, height));
        }
        tokens.take();
        if tokens.sees(RIGHT_PARENTHESIS) {
            return Ok((found, height));
        }
    }
    Err(EXHAUSTED)
}

/// The parameters of a function in their parentheses.
#[tactic(auto, unfolding(go_reading::specs::Decls::params))]
pub fn params(
    alloc: Global,
    tokens: &mut Tokens<'_>,
    turns: usize,
    depth: usize,
) -> Result<(Items<Param>, usize), ParseError>
    requires { depth ≤ 1000 }
    ensures tall { IfOk result (λ x. x.1 ≤ depth) }
    ensures reads { Reads (spec.params turns depth tokens.old) result tokens.new }
{
    tokens.expect(LEFT_PARENTHESIS)?;
    if tokens.sees(RIGHT_PARENTHESIS) {
        tokens.take();
        return Ok((Items::new(alloc), 0));
    }
    let (found, height) = params_from(alloc, tokens, turns, depth)?;
    tokens.expect(RIGHT_PARENTHESIS)?;
    Ok((found, height))
}

#[tactic(auto, unfolding(go_reading::specs::Lists::list_from))]
fn types(
    alloc: Global,
    tokens: &mut Tokens<'_>,
    turns: usize,
    depth: usize,
) -> Result<(Items<TypeExpr>, usize), ParseError>
    requires { depth ≤ 1000 }
    ensures tall { IfOk result (λ x. x.1 ≤ depth) }
    ensures reads { Reads (list_from t.comma t.right_parenthesis (type_ depth) turns [] 0 tokens.old) result tokens.new }
{
    let mut found = Items::new(alloc);
    let mut height = 0;
    for _turn in 0..turns {
        let (next, tall) = type_expr(alloc, tokens, depth)?;
        found.push(next)?;
        height = height.max(tall);
        if !tokens.sees(COMMA) {
            return Ok((found, height));
        }
        tokens.take();
        if tokens.sees(RIGHT_PARENTHESIS) {
            return Ok((found, height));
        }
    }
    Err(EXHAUSTED)
}

/// The types of the results of a function.
#[tactic(auto, unfolding(go_reading::specs::Decls::results))]
pub fn results(
    alloc: Global,
    tokens: &mut Tokens<'_>,
    turns: usize,
    depth: usize,
) -> Result<(Items<TypeExpr>, usize), ParseError>
    requires { depth ≤ 1000 }
    ensures tall { IfOk result (λ x. x.1 ≤ depth) }
    ensures reads { Reads (spec.results turns depth tokens.old) result tokens.new }
{
    if tokens.sees(LEFT_PARENTHESIS) {
        tokens.take();
        let (found, height) = types(alloc, tokens, turns, depth)?;
        tokens.expect(RIGHT_PARENTHESIS)?;
        return Ok((found, height));
    }
    let mut found = Items::new(alloc);
    if !begins_type(tokens.peek()) {
        return Ok((found, 0));
    }
    let (kind, height) = type_expr(alloc, tokens, depth)?;
    found.push(kind)?;
    Ok((found, height))
}
