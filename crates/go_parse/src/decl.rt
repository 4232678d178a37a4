//! Declarations of a file.
ghost use Rattle.std.specs.Prelude.{◌≡◌, ◌≤◌, ◌<◌, ◌+◌, max, IfOk};
ghost use Rattle.go_reading.specs.Input.{Reads};
ghost use Rattle.go_reading.specs.Decls as spec;
ghost use Rattle.go_grammar.specs.Blocks.{source};

use crate::bounds::Bounds;
use crate::cursor::Tokens;
use crate::fault::STRANGE;
use crate::params::{params, results};
use crate::spec::{consts, vars};
use crate::stmt::block;
use crate::words::{CONST, FUNC, VAR};
use go_ast::{Decl, Func, Span};
use go_reading::ParseError;
use std::alloc::Global;

/// A function, from its `func` on.
#[tactic(auto, unfolding(go_reading::specs::Decls::func))]
fn func(
    alloc: Global,
    tokens: &mut Tokens<'_>,
    bounds: Bounds,
    depth: usize,
) -> Result<(Decl, usize), ParseError>
    requires { depth ≤ 1000 }
    ensures tall { IfOk result (λ x. x.1 ≤ depth) }
    ensures reads { Reads (spec.func source bounds.turns bounds.most depth tokens.old) result tokens.new }
{
    let start = tokens.take().start;
    let (name, _) = tokens.expect_name(alloc)?;
    let (params, params_height) = params(alloc, tokens, bounds.turns, depth)?;
    let (results, results_height) = results(alloc, tokens, bounds.turns, depth)?;
    let (body, height) = block(alloc, tokens, bounds, depth)?;
    let found = Func {
        name,
        params,
        results,
        body: body.block,
        span: Span {
            start,
            end: body.end,
        },
    };
    let height = params_height.max(results_height).max(height);
    Ok((Decl::Func(found), height))
}

/// A declaration, and its height.
#[tactic(auto, unfolding(go_reading::specs::Decls::declaration))]
pub fn declaration(
    alloc: Global,
    tokens: &mut Tokens<'_>,
    bounds: Bounds,
    depth: usize,
) -> Result<(Decl, usize), ParseError>
    requires { depth ≤ 1000 }
    ensures tall { IfOk result (λ x. x.1 ≤ depth) }
    ensures reads { Reads (spec.declaration source bounds.turns bounds.most depth tokens.old) result tokens.new }
{
    if tokens.sees(CONST) {
        tokens.take();
        let ((found, _), height) = consts(alloc, tokens, bounds.turns, depth)?;
        return Ok((Decl::Const(found), height));
    }
    if tokens.sees(VAR) {
        tokens.take();
        let ((found, _), height) = vars(alloc, tokens, bounds.turns, depth)?;
        return Ok((Decl::Var(found), height));
    }
    if tokens.sees(FUNC) {
        return func(alloc, tokens, bounds, depth);
    }
    Err(STRANGE)
}
