//! A name, or two with a point between.
ghost use Rattle.std.specs.Prelude.{◌≡◌};
ghost use Rattle.go_grammar.specs.Trees.{expr_node, type_node};
ghost use Rattle.go_reading.specs.Input.{Reads};
ghost use Rattle.go_reading.specs.Types as spec;

use crate::cursor::Tokens;
use crate::fault::DEEP;
use crate::words::POINT;
use go_ast::{Expr, ExprForm, Name, Span, Target, TypeExpr, TypeForm};
use go_reading::{ParseError, Qualified};
use std::alloc::Global;

#[tactic(auto, unfolding(go_grammar::specs::Trees::type_node))]
pub fn into_type(found: Qualified) -> TypeExpr
    ensures { result ≡ spec.type_of found }
{
    let Qualified { name, member, end } = found;
    let span = Span {
        start: name.at,
        end,
    };
    let form = match member {
        None => TypeForm::Plain(name),
        Some(member) => TypeForm::Member(name, member),
    };
    TypeExpr { span, form }
}

#[tactic(auto, unfolding(go_grammar::specs::Trees::expr_node))]
pub fn into_expr(found: Qualified) -> Expr
    ensures { result ≡ spec.expr_of found }
{
    let Qualified { name, member, end } = found;
    let span = Span {
        start: name.at,
        end,
    };
    let form = match member {
        None => ExprForm::Plain(name),
        Some(member) => ExprForm::Member(name, member),
    };
    Expr { span, form }
}

pub fn into_named_target(found: Qualified) -> Target
    ensures { result ≡ spec.target_of found }
{
    let Qualified { name, member, .. } = found;
    match member {
        None => Target::Plain(name),
        Some(member) => Target::Member(name, member),
    }
}

#[tactic(auto, unfolding(go_reading::specs::Types::qualified))]
pub fn qualified_name(
    alloc: Global,
    tokens: &mut Tokens<'_>,
    depth: usize,
) -> Result<Qualified, ParseError>
    ensures { Reads (spec.qualified depth tokens.old) result tokens.new }
{
    let (name, end) = tokens.expect_name(alloc)?;
    if !tokens.sees(POINT) {
        return Ok(Qualified {
            name,
            member: None,
            end,
        });
    }
    if depth == 0 {
        return Err(DEEP);
    }
    tokens.take();
    let (member, end) = tokens.expect_name(alloc)?;
    Ok(Qualified {
        name,
        member: Some(member),
        end,
    })
}
