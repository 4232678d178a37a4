//! The names that types and expressions use.
ghost use Rattle.std.specs.Prelude.{◌≡◌, ◌++◌, ◌∷◌, [], flat_map, OnOk, IfOk};
ghost use Rattle.go_ast.specs.declared.expr.Expr.{Expr};
ghost use Rattle.go_ast.specs.declared.expr.TypeExpr.{TypeExpr};
ghost use Rattle.go_ast.specs.declared.expr.ExprForm.{out-ExprForm};
ghost use Rattle.go_ast.specs.declared.expr.TypeForm.{out-TypeForm};
ghost use Rattle.go_packages.specs.Mentions as spec;

use go_ast::{Expr, ExprForm, Name, NoMemory, TypeExpr, TypeForm};
use sqlite_items::{Boxed, Items};

fn add_name(all: &mut Items<Name>, name: &Name) -> Result<(), NoMemory>
    ensures { OnOk result (all.new ≡ all.old ++ name.now ∷ []) }
{
    all.push(Name {
        text: name.text.clone()?,
        at: name.at,
    })
}

/// Appends the names that a type uses.
#[cycle(types)]
#[tactic(auto, using(crate::proofs::Layers::names_in_type_is))]
pub fn add_type_names(all: &mut Items<Name>, t: &TypeExpr) -> Result<(), NoMemory>
    ensures { OnOk result (all.new ≡ all.old ++ spec.names_in_type t.now) }
{
    add_form_names(all, &t.form)
}

#[cycle(types)]
fn add_form_names(all: &mut Items<Name>, form: &TypeForm) -> Result<(), NoMemory>
    ensures { OnOk result (all.new ≡ all.old ++ spec.type_layer TypeExpr spec.names_in_type (out-TypeForm form.now)) }
{
    match form {
        TypeForm::Plain(name) => add_name(all, name),
        TypeForm::Member(first, _) => add_name(all, first),
        TypeForm::Chan(t) => add_type_names(all, t.get()),
    }
}

/// Appends the names that a type uses that may be left out.
pub fn add_names_if(all: &mut Items<Name>, t: &Option<TypeExpr>) -> Result<(), NoMemory>
    ensures { OnOk result (all.new ≡ all.old ++ spec.names_if t.now) }
{
    match t {
        Some(t) => add_type_names(all, t),
        None => Ok(()),
    }
}

/// Appends the names that an expression uses.
#[cycle(names)]
#[tactic(auto, using(crate::proofs::Layers::names_in_is))]
pub fn add_names(all: &mut Items<Name>, e: &Expr) -> Result<(), NoMemory>
    ensures { OnOk result (all.new ≡ all.old ++ spec.names_in e.now) }
{
    add_expr_names(all, &e.form)
}

#[cycle(names)]
fn add_expr_names(all: &mut Items<Name>, form: &ExprForm) -> Result<(), NoMemory>
    ensures { OnOk result (all.new ≡ all.old ++ spec.layer Expr spec.names_in (out-ExprForm form.now)) }
{
    match form {
        ExprForm::Binary(_, a, b) | ExprForm::Index(a, b) => {
            add_names(all, a.get())?;
            add_names(all, b.get())
        }
        ExprForm::Unary(_, e) | ExprForm::Paren(e) => add_names(all, e.get()),
        ExprForm::Call(callee, es) => {
            add_names(all, callee.get())?;
            add_all_names(all, es.as_slice())
        }
        ExprForm::Cut(text, low, high) => {
            add_names(all, text.get())?;
            add_bound_names(all, low)?;
            add_bound_names(all, high)
        }
        ExprForm::Plain(name) | ExprForm::Member(name, _) => add_name(all, name),
        ExprForm::Chan(t) => add_type_names(all, t),
        _ => Ok(()),
    }
}

#[cycle(names)]
fn add_bound_names(all: &mut Items<Name>, e: &Option<Boxed<Expr>>) -> Result<(), NoMemory>
    ensures { OnOk result (all.new ≡ all.old ++ spec.bound_names Expr spec.names_in e.now) }
{
    match e {
        Some(e) => add_names(all, e.get()),
        None => Ok(()),
    }
}

/// Appends the names that expressions use.
#[cycle(names)]
pub fn add_all_names(all: &mut Items<Name>, es: &[Expr]) -> Result<(), NoMemory>
    ensures { OnOk result (all.new ≡ all.old ++ flat_map spec.names_in es.now) }
{
    for e in es {
        add_names(all, e)?;
    }
    Ok(())
}
