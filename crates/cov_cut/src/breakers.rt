//! Where units start in the lists of a program.
ghost use Rattle.std.specs.Prelude.{◌≡◌};
ghost use Rattle.go_meaning.specs.Units as spec;

use go_meaning::{NodeForm, Simple};

/// Whether a simple statement is a call of the name `panic`.
fn is_panic(simple: &Simple) -> bool
    ensures { result ≡ spec.is_panic simple.now }
{
    match simple {
        Simple::Eval { panics, .. } => *panics,
        _ => false,
    }
}

/// Whether a part of a list ends after a statement.
pub(crate) fn is_breaker(form: &NodeForm) -> bool
    ensures { result ≡ spec.is_breaker form.now }
{
    match form {
        NodeForm::Simple(simple) => is_panic(simple),
        NodeForm::Block { .. }
        | NodeForm::If { .. }
        | NodeForm::For { .. }
        | NodeForm::RangeText { .. }
        | NodeForm::RangeChannel { .. }
        | NodeForm::Switch { .. }
        | NodeForm::Select(_)
        | NodeForm::Break(_)
        | NodeForm::Continue(_)
        | NodeForm::Fallthrough(_) => true,
        _ => false,
    }
}

/// Whether a unit starts at the first statement of a list.
pub(crate) fn starts_first(form: &NodeForm) -> bool
    ensures { result ≡ spec.starts_first form.now }
{
    match form {
        NodeForm::Block { at_colon, .. } => !*at_colon,
        _ => true,
    }
}

/// Whether a unit starts at a later statement of a list, by whether the one before it is a breaker.
pub(crate) fn starts_later(after_breaker: bool, form: &NodeForm) -> bool
    ensures { result ≡ spec.starts_later after_breaker form.now }
{
    match form {
        NodeForm::Block { .. } => false,
        _ => after_breaker,
    }
}
