//! Types.
ghost use Rattle.std.specs.Prelude.{◌≡◌, ◌≤◌, ◌<◌, ◌+◌, IfOk};
ghost use Rattle.go_grammar.specs.Trees.{type_node};
ghost use Rattle.go_reading.specs.Input.{Reads};
ghost use Rattle.go_reading.specs.Types as spec;

use crate::cursor::Tokens;
use crate::fault::{DEEP, EXHAUSTED};
use crate::kind::begins_type;
use crate::qualified::{into_type, qualified_name};
use crate::words::CHAN;
use go_ast::{Name, Span, Text, TypeExpr, TypeForm};
use go_reading::ParseError;
use sqlite_items::Boxed;
use std::alloc::{AllocError, Global};

/// A type, and its height.
#[cycle(types)]
#[tactic(auto, unfolding(go_reading::specs::Types::type_))]
pub fn type_expr(
    alloc: Global,
    tokens: &mut Tokens<'_>,
    depth: usize,
) -> Result<(TypeExpr, usize), ParseError>
    requires { depth ≤ 1000 }
    ensures tall { IfOk result (λ x. x.1 ≤ depth) }
    ensures reads { Reads (spec.type_ depth tokens.old) result tokens.new }
{
    if depth == 0 {
        return Err(EXHAUSTED);
    }
    type_in(alloc, tokens, depth - 1)
}

#[cycle(types)]
#[tactic(auto, unfolding(go_reading::specs::Types::type_in, go_grammar::specs::Trees::type_node))]
fn type_in(
    alloc: Global,
    tokens: &mut Tokens<'_>,
    depth: usize,
) -> Result<(TypeExpr, usize), ParseError>
    requires { depth < 1000 }
    ensures tall { IfOk result (λ x. x.1 ≤ depth + 1) }
    ensures reads { Reads (spec.type_in depth (spec.type_ depth) tokens.old) result tokens.new }
{
    if !tokens.sees(CHAN) {
        let found = qualified_name(alloc, tokens, 1)?;
        return Ok((into_type(found), 1));
    }
    if depth == 0 {
        return Err(DEEP);
    }
    let start = tokens.take();
    let (of, height) = type_expr(alloc, tokens, depth)?;
    let span = Span {
        start: start.start,
        end: of.span.end,
    };
    let form = TypeForm::Chan(Boxed::new(alloc, of)?);
    Ok((TypeExpr { span, form }, height + 1))
}

/// A type, or none.
#[tactic(auto, unfolding(go_reading::specs::Types::maybe_type))]
pub fn maybe_type(
    alloc: Global,
    tokens: &mut Tokens<'_>,
    depth: usize,
) -> Result<(Option<TypeExpr>, usize), ParseError>
    requires { depth ≤ 1000 }
    ensures tall { IfOk result (λ x. x.1 ≤ depth) }
    ensures reads { Reads (spec.maybe_type depth tokens.old) result tokens.new }
{
    if !begins_type(tokens.peek()) {
        return Ok((None, 0));
    }
    let (found, height) = type_expr(alloc, tokens, depth)?;
    Ok((Some(found), height))
}

fn copy_name(alloc: Global, name: &Name) -> Result<Name, AllocError>
    ensures { IfOk result (λ copy. copy ≡ name.now) }
{
    Ok(Name {
        text: Text::of(alloc, name.text.bytes())?,
        at: name.at,
    })
}

/// A copy of a type.
pub fn copy_type(alloc: Global, tree: &TypeExpr) -> Result<TypeExpr, AllocError>
    ensures { IfOk result (λ copy. copy ≡ tree.now) }
{
    let form = match &tree.form {
        TypeForm::Plain(name) => TypeForm::Plain(copy_name(alloc, name)?),
        TypeForm::Member(package, name) => {
            TypeForm::Member(copy_name(alloc, package)?, copy_name(alloc, name)?)
        }
        TypeForm::Chan(of) => TypeForm::Chan(Boxed::new(alloc, copy_type(alloc, of.get())?)?),
    };
    Ok(TypeExpr {
        span: tree.span,
        form,
    })
}
