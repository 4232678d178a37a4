//! Declarations of constants and variables in a body.
ghost use Rattle.std.specs.Prelude.{◌≡◌, Ok};
ghost use Rattle.go_types.specs.Checking.{Gives, Checks};
ghost use Rattle.go_types.specs.Walking.{Walks};
ghost use Rattle.go_types.specs.Statements as statements;

use crate::check::check_value;
use crate::constant::within;
use crate::fault::Refusal;
use crate::kinds::OperandKind;
use crate::names::{Marks, Meaning, Names};
use crate::operand::{Argument, Term};
use crate::types::ValueType;
use crate::values::{initial, type_if};
use crate::walk::Walk;
use go_ast::{ConstSpec, SourceKind, VarSpec};
use go_meaning::Assignment;
use sqlite_items::Items;
use std::alloc::Global;

/// Variables that share a type and values, in the statement at an offset.
#[tactic(auto, unfolding(crate::specs::Statements::var_spec))]
pub fn var_spec(
    alloc: Global,
    walk: &mut Walk,
    at: u32,
    spec: &VarSpec,
) -> Result<Assignment, Refusal>
    ensures { Walks (statements.var_spec at spec.now walk.old) result walk.new }
{
    let names = spec.names.as_slice();
    let wanted = type_if(&walk.names, &mut walk.marks, &spec.kind)?;
    let values = spec.values.as_slice();
    let filled = initial(
        alloc,
        &walk.names,
        &mut walk.marks,
        at,
        wanted,
        names.len(),
        values,
    )?;
    let targets = walk.declare_all(alloc, names, filled.types.as_slice())?;
    Ok(Assignment {
        targets,
        values: filled.codes,
    })
}

/// The variables of a declaration at an offset.
pub fn var_specs(
    alloc: Global,
    walk: &mut Walk,
    at: u32,
    specs: &[VarSpec],
) -> Result<Items<Assignment>, Refusal>
    ensures { Walks (statements.var_specs at specs.now walk.old) result walk.new }
{
    let mut all = Items::new(alloc);
    for one in specs {
        let assignment = var_spec(alloc, walk, at, one)?;
        all.push(assignment)?;
    }
    Ok(all)
}

/// The kind of a constant with the type that is written, if any.
fn const_kind(wanted: Option<ValueType>, kind: OperandKind) -> OperandKind
    ensures { result ≡ statements.const_kind wanted kind }
{
    match wanted {
        Some(of) => OperandKind::Typed(of),
        None => kind,
    }
}

fn can_be(wanted: Option<ValueType>, kind: OperandKind) -> bool
    ensures { result ≡ statements.can_be wanted kind }
{
    match wanted {
        Some(of) => kind.is_assignable(of),
        None => true,
    }
}

fn const_term(at: u32, wanted: Option<ValueType>, term: Term) -> Result<Meaning, Refusal>
    ensures { Gives (statements.const_term at wanted term) result }
{
    match term {
        Term::Constant(kind, constant) => {
            let kind = const_kind(wanted, kind);
            Ok(Meaning::Constant(kind, within(at, kind, constant)?))
        }
        _other => Err(Refusal::at(at, SourceKind::NotConstant)),
    }
}

/// What the name of a constant means.
fn const_meaning(wanted: Option<ValueType>, a: Argument) -> Result<Meaning, Refusal>
    ensures { Gives (statements.const_meaning wanted a) result }
{
    if !can_be(wanted, a.kind()) {
        return Err(a.wrong());
    }
    let Argument { at, term } = a;
    const_term(at, wanted, term)
}

/// What a constant's name means.
pub fn const_value(
    alloc: Global,
    names: &Names,
    marks: &mut Marks,
    spec: &ConstSpec,
) -> Result<Meaning, Refusal>
    ensures { Checks (statements.const_value spec.now names.now marks.old) result marks.new }
{
    let wanted = type_if(names, marks, &spec.kind)?;
    let a = check_value(alloc, names, marks, &spec.value)?;
    const_meaning(wanted, a)
}

#[tactic(auto, unfolding(crate::specs::Statements::const_spec))]
fn const_spec(alloc: Global, walk: &mut Walk, spec: &ConstSpec) -> Result<(), Refusal>
    ensures { Walks (statements.const_spec spec.now walk.old) result walk.new }
{
    let meaning = const_value(alloc, &walk.names, &mut walk.marks, spec)?;
    walk.declare_const(&spec.name, meaning)
}

/// The constants of a declaration.
pub fn const_specs(alloc: Global, walk: &mut Walk, specs: &[ConstSpec]) -> Result<(), Refusal>
    ensures { Walks (statements.const_specs specs.now walk.old) result walk.new }
{
    for one in specs {
        const_spec(alloc, walk, one)?;
    }
    Ok(())
}
