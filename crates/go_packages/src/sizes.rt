//! Where expressions and the arguments of calls stand.
ghost use Rattle.std.specs.Prelude.{◌≡◌, slice_get, unwrap_or};
ghost use Rattle.go_ast.specs.declared.expr.Expr.{Expr};
ghost use Rattle.go_ast.specs.declared.expr.ExprForm.{out-ExprForm};
ghost use Rattle.go_packages.specs.Mentions as spec;

use go_ast::{Expr, ExprForm};
use sqlite_items::at as item;

/// The offset of an expression, inside its parentheses.
#[cycle(inner)]
#[tactic(auto, using(crate::proofs::Layers::places_is))]
fn inner_at(e: &Expr) -> u32
    ensures { result ≡ (spec.places e.now).at }
{
    inner_form_at(&e.form, e.span.start)
}

#[cycle(inner)]
fn inner_form_at(form: &ExprForm, at: u32) -> u32
    ensures { result ≡ (spec.place_layer Expr spec.places (out-ExprForm form.now) at).at }
{
    match form {
        ExprForm::Paren(inner) => inner_at(inner.get()),
        _ => at,
    }
}

fn second_inner_at(es: &[Expr], at: u32) -> u32
    ensures { result ≡ spec.second_of es.now at }
{
    match item(es, 1) {
        Some(size) => inner_at(size),
        None => at,
    }
}

/// The offset of the second argument of a call.
#[cycle(size)]
#[tactic(auto, using(crate::proofs::Layers::places_is))]
pub fn size_at(e: &Expr) -> u32
    ensures { result ≡ spec.size_at e.now }
{
    size_form_at(&e.form, e.span.start)
}

#[cycle(size)]
fn size_form_at(form: &ExprForm, at: u32) -> u32
    ensures { result ≡ spec.second_at (spec.place_layer Expr spec.places (out-ExprForm form.now) at) }
{
    match form {
        ExprForm::Paren(inner) => size_at(inner.get()),
        ExprForm::Call(_, es) => second_inner_at(es.as_slice(), at),
        _ => at,
    }
}
