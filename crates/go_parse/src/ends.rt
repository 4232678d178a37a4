//! Where lists and parts that may be left out end.
ghost use Rattle.std.specs.Prelude.{◌≡◌};
ghost use Rattle.go_grammar.specs.Trees as trees;

use go_ast::{Expr, TypeExpr, VarSpec};

/// The end of the last expression, or else an offset.
pub fn exprs_end(end: u32, values: &[Expr]) -> u32
    ensures { result ≡ trees.exprs_end end values.now }
{
    match values {
        [] => end,
        [.., last] => last.span.end,
    }
}

fn option_end(kind: &Option<TypeExpr>) -> u32
    ensures { result ≡ trees.option_end kind.now }
{
    match kind {
        Some(kind) => kind.span.end,
        None => 0,
    }
}

/// The end of variables of one type.
pub fn var_end(found: &VarSpec) -> u32
    ensures { result ≡ trees.var_end found.now }
{
    exprs_end(option_end(&found.kind), found.values.as_slice())
}
