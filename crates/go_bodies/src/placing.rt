//! Where a statement stands among others, and the simple statement that one is.
ghost use Rattle.std.specs.Prelude.{◌≡◌, ◌+◌, ◌<◌, ◌^◌};
ghost use Rattle.go_types.specs.Checking.{Gives};
ghost use Rattle.go_types.specs.Bodies as spec;

use go_ast::SourceKind;
use go_meaning::{Assignment, Node, NodeForm, Simple};
use go_types::{Position, Refusal};
use sqlite_items::Items;
use std::alloc::Global;

/// Whether a block's brace follows its clause's colon.
pub fn is_at_colon(position: Position, left: u32) -> bool
    ensures { result ≡ spec.is_at_colon position left }
{
    match position.colon {
        Some(colon) => u64::from(left) == u64::from(colon) + 1,
        None => false,
    }
}

/// What is said of the last statement of a list, where so many follow.
pub fn next_at(following: usize, next: Option<u64>) -> Option<u64>
    ensures { result ≡ spec.next_at following next }
{
    if following == 0 { next } else { None }
}

/// The list of the next clause, where so many follow the one whose list has a number.
pub fn next_clause(number: u64, following: usize) -> Option<u64>
    requires { number + following < 2 ^ 64 }
    ensures { result ≡ spec.next_clause number following }
{
    if following == 0 {
        None
    } else {
        Some(number + 1)
    }
}

/// Takes the simple statement out of a form.
pub fn take_simple(alloc: Global, form: &mut NodeForm) -> Option<Simple>
    ensures { result ≡ spec.simple_in form.old }
{
    match form {
        NodeForm::Simple(simple) => {
            let nothing = Simple::Assign(Assignment {
                targets: Items::new(alloc),
                values: Items::new(alloc),
            });
            Some(std::mem::replace(simple, nothing))
        }
        _ => None,
    }
}

/// The simple statement that a statement is.
pub fn simple_of(alloc: Global, node: Node) -> Result<Simple, Refusal>
    ensures { Gives (spec.simple_of node) result }
{
    let mut node = node;
    match take_simple(alloc, &mut node.form) {
        Some(simple) => Ok(simple),
        None => Err(Refusal::at(node.span.start, SourceKind::BadCall)),
    }
}
