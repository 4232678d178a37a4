//! Statements without lists in them.
ghost use Rattle.std.specs.Prelude.{◌≡◌, Ok};
ghost use Rattle.go_ast.specs.declared.block.StmtForm.{out-StmtForm};
ghost use Rattle.go_types.specs.Checking.{Gives};
ghost use Rattle.go_types.specs.Walking.{Walks};
ghost use Rattle.go_types.specs.Bodies as spec;

use crate::declaration::{const_specs, var_specs};
use crate::fault::Refusal;
use crate::operator::Operator;
use crate::simple::{assign, called, deferred, define, eval, return_, send, spawned, step, update};
use crate::walk::{Position, Walk};
use go_ast::{SourceKind, StmtForm};
use go_meaning::{NodeForm, Simple};
use go_value::IntOp;
use std::alloc::Global;

/// A simple statement at an offset.
#[tactic(auto, unfolding(crate::specs::Bodies::simple_form))]
pub fn simple_form(
    alloc: Global,
    walk: &mut Walk,
    form: &StmtForm,
    at: u32,
) -> Result<Simple, Refusal>
    ensures { Walks (spec.simple_form (out-StmtForm form.now) at walk.old) result walk.new }
{
    match form {
        StmtForm::Eval(e) => eval(alloc, walk, at, e),
        StmtForm::Send(channel, e) => send(alloc, walk, channel, e),
        StmtForm::Up(target) => step(alloc, walk, at, target, Operator::Arithmetic(IntOp::Add)),
        StmtForm::Down(target) => step(alloc, walk, at, target, Operator::Arithmetic(IntOp::Sub)),
        StmtForm::Update(target, op, e) => update(alloc, walk, at, target, *op, e),
        StmtForm::Assign(targets, es) => {
            assign(alloc, walk, at, targets.as_slice(), es.as_slice())
        }
        StmtForm::Define(names, es) => define(alloc, walk, at, names.as_slice(), es.as_slice()),
        _ => Err(Refusal::at(at, SourceKind::BadCall)),
    }
}

/// `fallthrough` at an offset, where there is a next clause.
fn fall(at: u32, next: Option<u64>) -> Result<NodeForm, Refusal>
    ensures { Gives (spec.fall at next) result }
{
    match next {
        Some(list) => Ok(NodeForm::Fallthrough(list)),
        None => Err(Refusal::at(at, SourceKind::BadLabel)),
    }
}

/// A counter of the file. Fewer than 2^32 units are in a module.
fn count(walk: &Walk, unit: u32) -> Result<NodeForm, Refusal>
    ensures { Walks (spec.count unit walk.now) result walk.now }
{
    match walk.first_unit.checked_add(unit) {
        Some(unit) => Ok(NodeForm::Count(unit)),
        None => Err(Refusal::NoMemory),
    }
}

/// A statement without lists in it, at an offset.
#[tactic(auto, unfolding(crate::specs::Bodies::plain_form))]
pub fn plain_form(
    alloc: Global,
    walk: &mut Walk,
    form: &StmtForm,
    at: u32,
    position: Position,
) -> Result<NodeForm, Refusal>
    ensures { Walks (spec.plain_form (out-StmtForm form.now) at position walk.old) result walk.new }
{
    match form {
        StmtForm::Const(specs) => {
            const_specs(alloc, walk, specs.as_slice())?;
            Ok(NodeForm::Const)
        }
        StmtForm::Var(specs) => Ok(NodeForm::Var(var_specs(alloc, walk, at, specs.as_slice())?)),
        StmtForm::Return(es) => return_(alloc, walk, at, es.as_slice()),
        StmtForm::Break(name) => Ok(NodeForm::Break(walk.jump(false, at, name)?)),
        StmtForm::Continue(name) => Ok(NodeForm::Continue(walk.jump(true, at, name)?)),
        StmtForm::Fallthrough => fall(at, position.next),
        StmtForm::Go(e) => spawned(at, called(alloc, walk, at, e)?),
        StmtForm::Defer(e) => deferred(at, called(alloc, walk, at, e)?),
        StmtForm::Count(unit) => count(walk, *unit),
        StmtForm::Eval(_)
        | StmtForm::Send(_, _)
        | StmtForm::Up(_)
        | StmtForm::Down(_)
        | StmtForm::Update(_, _, _)
        | StmtForm::Assign(_, _)
        | StmtForm::Define(_, _)
        | StmtForm::Block(_)
        | StmtForm::If { .. }
        | StmtForm::For { .. }
        | StmtForm::Range { .. }
        | StmtForm::Switch { .. }
        | StmtForm::Select { .. }
        | StmtForm::Label(_, _) => Ok(NodeForm::Simple(simple_form(alloc, walk, form, at)?)),
    }
}
