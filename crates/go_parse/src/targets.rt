//! Targets of assignments.
ghost use Rattle.std.specs.Prelude.{◌≡◌, None, Some, false, IfOk, MatchResult};
ghost use Rattle.go_reading.specs.Input.{Reads};
ghost use Rattle.go_grammar.specs.Trees as trees;
ghost use Rattle.go_reading.specs.Simple as spec;

use crate::cursor::Tokens;
use crate::qualified::{into_named_target, qualified_name};
use go_ast::{Expr, ExprForm, Name, Target};
use go_reading::ParseError;
use sqlite_items::Items;
use std::alloc::{AllocError, Global};

/// The target that an expression is, or else the expression.
pub fn into_target(tree: Expr) -> Result<Target, Expr>
    ensures { MatchResult result (λ g. spec.target_of tree ≡ Some g) (λ e. (e ≡ tree) × (spec.target_of tree ≡ None)) }
{
    let Expr { span, form } = tree;
    match form {
        ExprForm::Plain(name) => Ok(Target::Plain(name)),
        ExprForm::Member(package, name) => Ok(Target::Member(package, name)),
        form => Err(Expr { span, form }),
    }
}

/// The name that an expression is, or else the expression.
pub fn into_name(tree: Expr) -> Result<Name, Expr>
    ensures { MatchResult result (λ name. spec.target_of tree ≡ Some (Target.Plain name)) (λ e. (e ≡ tree) × (spec.is_name_target (spec.target_of tree) ≡ false)) }
{
    let Expr { span, form } = tree;
    match form {
        ExprForm::Plain(name) => Ok(name),
        form => Err(Expr { span, form }),
    }
}

/// Whether a target is a name.
pub fn is_name_target(target: &Target) -> bool
    ensures { result ≡ spec.is_name_target (Some target.now) }
{
    matches!(target, Target::Plain(_))
}

/// The offset of the first byte of a target.
pub fn target_start(target: &Target) -> u32
    ensures { result ≡ trees.target_start target.now }
{
    match target {
        Target::Plain(name) => name.at,
        Target::Member(package, _) => package.at,
    }
}

/// The names of targets that are all names.
pub fn into_names(alloc: Global, targets: Vec<Target>) -> Result<Option<Items<Name>>, AllocError>
    ensures { IfOk result (λ names. names ≡ spec.plains_of targets.items) }
{
    let mut names = Items::new(alloc);
    for target in targets {
        match target {
            Target::Plain(name) => names.push(name)?,
            Target::Member(..) => return Ok(None),
        }
    }
    Ok(Some(names))
}

/// A further target. One with a `.` can only be assigned to.
#[tactic(auto, unfolding(go_reading::specs::Simple::next_target))]
pub fn next_target(
    alloc: Global,
    tokens: &mut Tokens<'_>,
    depth: usize,
) -> Result<Target, ParseError>
    ensures { Reads (spec.next_target depth tokens.old) result tokens.new }
{
    let found = qualified_name(alloc, tokens, depth)?;
    Ok(into_named_target(found))
}
