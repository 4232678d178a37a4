//! Which lists of statements terminate, and what is found at the end of a body.
ghost use Rattle.std.specs.Prelude.{◌≡◌, ◌+◌, ◌<◌, ◌^◌, length};
ghost use Rattle.go_meaning.specs.declared.expr.Expr.{out-Expr};
ghost use Rattle.go_types.specs.Checking.{Gives};
ghost use Rattle.go_types.specs.Endings as spec;

use crate::fault::Refusal;
use crate::walk::{Label, Walk};
use go_ast::SourceKind;
use go_meaning::{CaseClause, CommClause, Expr, Node, NodeForm, Op, Simple};
use sqlite_items::{Items, at as item};

fn list_at(lists: &[Items<Node>], number: u64) -> &[Node]
    ensures { result.now ≡ spec.list_at lists.now number }
{
    match item(lists, number as usize) {
        Some(list) => list.as_slice(),
        None => &[],
    }
}

/// Whether a `break` in a list, down to a depth, leaves so many statements around the list before its own.
#[cycle(breaks)]
#[tactic(auto, using(crate::proofs::Depths::breaks_down))]
fn list_breaks(lists: &[Items<Node>], depth: usize, leaves: u64, number: u64) -> bool
    requires { leaves + depth < 2 ^ 64 }
    ensures { result ≡ spec.breaks lists.now depth leaves number }
{
    if depth == 0 {
        return false;
    }
    statements_break(lists, depth - 1, leaves, list_at(lists, number))
}

#[cycle(breaks)]
fn statements_break(lists: &[Items<Node>], depth: usize, leaves: u64, list: &[Node]) -> bool
    requires { leaves + depth + 1 < 2 ^ 64 }
    ensures { result ≡ spec.statements_break (spec.breaks lists.now depth) leaves list.now }
{
    for s in list {
        if form_breaks(lists, depth, leaves, &s.form) {
            return true;
        }
    }
    false
}

#[cycle(breaks)]
fn form_breaks(lists: &[Items<Node>], depth: usize, leaves: u64, form: &NodeForm) -> bool
    requires { leaves + depth + 1 < 2 ^ 64 }
    ensures { result ≡ spec.breaks_form (spec.breaks lists.now depth) leaves form.now }
{
    match form {
        NodeForm::Break(own) => *own == leaves,
        NodeForm::Block { list, .. } => list_breaks(lists, depth, leaves, *list),
        NodeForm::If { then, other, .. } => {
            list_breaks(lists, depth, leaves, *then)
                || match other {
                    Some(other) => list_breaks(lists, depth, leaves, *other),
                    None => false,
                }
        }
        NodeForm::For { body, .. }
        | NodeForm::RangeText { body, .. }
        | NodeForm::RangeChannel { body, .. } => list_breaks(lists, depth, leaves + 1, *body),
        NodeForm::Switch { clauses, .. } => {
            cases_break(lists, depth, leaves + 1, clauses.as_slice())
        }
        NodeForm::Select(clauses) => comms_break(lists, depth, leaves + 1, clauses.as_slice()),
        _ => false,
    }
}

#[cycle(breaks)]
fn cases_break(lists: &[Items<Node>], depth: usize, leaves: u64, clauses: &[CaseClause]) -> bool
    requires { leaves + depth < 2 ^ 64 }
    ensures { result ≡ spec.cases_break (spec.breaks lists.now depth) leaves clauses.now }
{
    for clause in clauses {
        if list_breaks(lists, depth, leaves, clause.list) {
            return true;
        }
    }
    false
}

#[cycle(breaks)]
fn comms_break(lists: &[Items<Node>], depth: usize, leaves: u64, clauses: &[CommClause]) -> bool
    requires { leaves + depth < 2 ^ 64 }
    ensures { result ≡ spec.comms_break (spec.breaks lists.now depth) leaves clauses.now }
{
    for clause in clauses {
        if list_breaks(lists, depth, leaves, clause.list) {
            return true;
        }
    }
    false
}

/// A call of the predeclared `panic`.
fn is_panic(code: &Expr) -> bool
    ensures { result ≡ spec.is_panic (out-Expr code.now) }
{
    matches!(code, Expr::Apply(Op::Panic, _))
}

fn is_panic_call(simple: &Simple) -> bool
    ensures { result ≡ spec.is_panic_call simple.now }
{
    match simple {
        Simple::Eval { value, .. } => is_panic(value),
        _ => false,
    }
}

fn is_fall(form: &NodeForm) -> bool
    ensures { result ≡ spec.is_fall form.now }
{
    matches!(form, NodeForm::Fallthrough(_))
}

fn falls(lists: &[Items<Node>], number: u64) -> bool
    ensures { result ≡ spec.falls lists.now number }
{
    let list = list_at(lists, number);
    match item(list, list.len().saturating_sub(1)) {
        Some(last) => is_fall(&last.form),
        None => false,
    }
}

fn has_default(clauses: &[CaseClause]) -> bool
    ensures { result ≡ spec.has_default clauses.now }
{
    clauses.iter().any(|clause| clause.values.is_none())
}

/// Whether a list, down to a depth, terminates.
#[cycle(ends)]
#[tactic(auto, using(crate::proofs::Depths::ends_down))]
fn list_ends(lists: &[Items<Node>], depth: usize, number: u64) -> bool
    requires { depth < 2 ^ 63 }
    ensures { result ≡ spec.ends lists.now depth number }
{
    if depth == 0 {
        return false;
    }
    let list = list_at(lists, number);
    match item(list, list.len().saturating_sub(1)) {
        Some(last) => form_ends(lists, depth - 1, &last.form),
        None => false,
    }
}

#[cycle(ends)]
fn form_ends(lists: &[Items<Node>], depth: usize, form: &NodeForm) -> bool
    requires { depth < 2 ^ 63 }
    ensures { result ≡ spec.ends_form lists.now (spec.ends lists.now depth) (spec.breaks lists.now depth 0) form.now }
{
    match form {
        NodeForm::Return(_, _) => true,
        NodeForm::Simple(simple) => is_panic_call(simple),
        NodeForm::Block { list, .. } => list_ends(lists, depth, *list),
        NodeForm::If {
            then,
            other: Some(other),
            ..
        } => list_ends(lists, depth, *then) && list_ends(lists, depth, *other),
        NodeForm::For {
            test: None,
            body,
            ..
        } => !list_breaks(lists, depth, 0, *body),
        NodeForm::Switch { clauses, .. } => {
            has_default(clauses.as_slice()) && cases_end(lists, depth, clauses.as_slice())
        }
        NodeForm::Select(clauses) => comms_end(lists, depth, clauses.as_slice()),
        _ => false,
    }
}

#[cycle(ends)]
fn cases_end(lists: &[Items<Node>], depth: usize, clauses: &[CaseClause]) -> bool
    requires { depth < 2 ^ 63 }
    ensures { result ≡ spec.cases_end lists.now (spec.ends lists.now depth) (spec.breaks lists.now depth 0) clauses.now }
{
    for clause in clauses {
        let list = clause.list;
        if list_breaks(lists, depth, 0, list) {
            return false;
        }
        if !list_ends(lists, depth, list) && !falls(lists, list) {
            return false;
        }
    }
    true
}

#[cycle(ends)]
fn comms_end(lists: &[Items<Node>], depth: usize, clauses: &[CommClause]) -> bool
    requires { depth < 2 ^ 63 }
    ensures { result ≡ spec.comms_end (spec.ends lists.now depth) (spec.breaks lists.now depth 0) clauses.now }
{
    for clause in clauses {
        let list = clause.list;
        if list_breaks(lists, depth, 0, list) || !list_ends(lists, depth, list) {
            return false;
        }
    }
    true
}

/// Whether the list with a number terminates.
#[tactic(auto, unfolding(crate::specs::Endings::terminates))]
pub fn terminates(lists: &[Items<Node>], number: u64) -> bool
    ensures { result ≡ spec.terminates lists.now number }
{
    list_ends(lists, lists.len(), number)
}

/// The offset of the first variable that is never read.
fn unread(read: &[bool], declared: &[u32]) -> Option<u32>
    ensures { result ≡ spec.unread read.now declared.now }
{
    let mut left = declared;
    for was_read in read {
        let [at, rest @ ..] = left else {
            return None;
        };
        if !*was_read {
            return Some(*at);
        }
        left = rest;
    }
    None
}

/// The offset of the first label that is never named.
fn unnamed(named: &[bool], labels: &[Label]) -> Option<u32>
    ensures { result ≡ spec.unnamed named.now labels.now }
{
    let mut left = labels;
    for was_named in named {
        let [label, rest @ ..] = left else {
            return None;
        };
        if !*was_named {
            return Some(label.at);
        }
        left = rest;
    }
    None
}

/// The first of an unused variable and an unused label.
fn unused(variable: Option<u32>, label: Option<u32>) -> Result<(), Refusal>
    ensures { Gives (spec.unused variable label) result }
{
    match (variable, label) {
        (None, None) => Ok(()),
        (Some(x), None) => Err(Refusal::at(x, SourceKind::UnusedVariable)),
        (None, Some(label)) => Err(Refusal::at(label, SourceKind::UnusedLabel)),
        (Some(x), Some(label)) => {
            if label < x {
                Err(Refusal::at(label, SourceKind::UnusedLabel))
            } else {
                Err(Refusal::at(x, SourceKind::UnusedVariable))
            }
        }
    }
}

impl Walk {
    fn is_missing(&self, number: u64) -> bool
        ensures { result ≡ spec.is_missing self.now number }
    {
        self.results.len() > 0 && !terminates(self.lists.as_slice(), number)
    }

    /// What is found at the end of a body, whose brace stands at an offset and whose list has a number.
    pub fn ended(&self, right: u32, number: u64) -> Result<(), Refusal>
        ensures { Gives (spec.ended right number self.now) result }
    {
        if self.is_missing(number) {
            return Err(Refusal::at(right, SourceKind::MissingReturn));
        }
        let variable = unread(self.marks.read.as_slice(), self.declared.as_slice());
        let label = unnamed(self.named.as_slice(), self.labels.as_slice());
        unused(variable, label)
    }
}
