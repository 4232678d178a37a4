//! Where control may leave a statement.
ghost use Rattle.std.specs.Prelude.{◌≡◌, unwrap_or};
ghost use Rattle.go_ast.specs.declared.expr.ExprForm.{out-ExprForm};
ghost use Rattle.go_ast.specs.declared.block.StmtForm.{out-StmtForm};
ghost use Rattle.cov_cut.specs.Outline.{mark_of};
ghost use Rattle.cov_cut.specs.Outlining as spec;
ghost use Rattle.cov_cut.specs.Outlining.{outline};
ghost use Rattle.cov_cut.specs.Layers.{form_layer};

use go_ast::{Expr, ExprForm, Stmt, StmtForm};

fn is_name_panic(form: &ExprForm) -> bool
    ensures { result ≡ spec.is_name_panic (out-ExprForm form.now) }
{
    match form {
        ExprForm::Plain(name) => name.text.bytes() == b"panic".as_slice(),
        _ => false,
    }
}

/// Whether an expression calls the identifier `panic` with one argument.
fn is_panic(form: &ExprForm) -> bool
    ensures { result ≡ spec.is_panic (out-ExprForm form.now) }
{
    match form {
        ExprForm::Call(callee, arguments) => {
            is_name_panic(&callee.get().form) && arguments.len() == 1
        }
        _ => false,
    }
}

fn form_breaks(form: &StmtForm) -> bool
    ensures { result ≡ (form_layer (out-StmtForm form.now)).breaks }
{
    match form {
        StmtForm::Eval(value) => is_panic(&value.form),
        StmtForm::Block(_)
        | StmtForm::If { .. }
        | StmtForm::For { .. }
        | StmtForm::Range { .. }
        | StmtForm::Switch { .. }
        | StmtForm::Select { .. }
        | StmtForm::Label(_, _)
        | StmtForm::Break(_)
        | StmtForm::Continue(_)
        | StmtForm::Fallthrough => true,
        _ => false,
    }
}

/// Whether a segment ends after the statement.
#[tactic(auto, using(crate::proofs::Opened::outline_is, crate::proofs::Opened::form_is))]
pub fn breaks(s: &Stmt) -> bool
    ensures { result ≡ (mark_of (outline s.now)).breaks }
{
    form_breaks(&s.form)
}

/// The boundary of a statement that doesn't end at its end.
#[cycle(boundary)]
fn form_boundary(form: &StmtForm, end: u32) -> u32
    ensures { result ≡ unwrap_or (form_layer (out-StmtForm form.now)).boundary end }
{
    match form {
        StmtForm::Block(body)
        | StmtForm::If { then: body, .. }
        | StmtForm::For { body, .. }
        | StmtForm::Range { body, .. } => body.left,
        StmtForm::Switch { left, .. } | StmtForm::Select { left, .. } => *left,
        StmtForm::Label(_, inner) => boundary(inner.get()),
        _ => end,
    }
}

/// The offset at which control enters the statement's body, or else the statement's end.
#[cycle(boundary)]
#[tactic(auto, using(crate::proofs::Opened::outline_is, crate::proofs::Opened::form_is))]
pub fn boundary(s: &Stmt) -> u32
    ensures { result ≡ (mark_of (outline s.now)).boundary }
{
    form_boundary(&s.form, s.span.end)
}
