//! Conditions, tags, and what a `range` goes over.
ghost use Rattle.std.specs.Prelude.{◌≡◌, Ok, IfOk};
ghost use Rattle.go_types.specs.Checking.{Gives};
ghost use Rattle.go_types.specs.Walking.{Walks};
ghost use Rattle.go_types.specs.Bodies as spec;

use crate::call::measurable;
use crate::check::check_value;
use crate::declare::is_blank;
use crate::fault::Refusal;
use crate::given::{Ranged, Typed};
use crate::kinds::OperandKind;
use crate::operand::Argument;
use crate::types::{Basic, ValueType};
use crate::values::{wanted_code, wanted_type};
use crate::walk::Walk;
use go_ast::{Expr as Written, Name, NoMemory, SourceKind};
use go_meaning::{Expr, NodeForm, Target, Value};
use sqlite_items::{Items, at as item};
use std::alloc::Global;

/// A condition.
pub fn condition(alloc: Global, walk: &mut Walk, e: &Written) -> Result<Expr, Refusal>
    ensures { Walks (spec.condition e.now walk.old) result walk.new }
{
    let a = check_value(alloc, &walk.names, &mut walk.marks, e)?;
    a.into_type(ValueType::basic(Basic::Bool))
}

/// A condition that may be left out.
#[tactic(auto, unfolding(crate::specs::Bodies::condition_if))]
pub fn condition_if(
    alloc: Global,
    walk: &mut Walk,
    e: &Option<Written>,
) -> Result<Option<Expr>, Refusal>
    ensures { Walks (spec.condition_if e.now walk.old) result walk.new }
{
    match e {
        Some(e) => Ok(Some(condition(alloc, walk, e)?)),
        None => Ok(None),
    }
}

fn tag_value(a: Argument) -> Result<Typed, Refusal>
    ensures { Gives (spec.tag_value a) result }
{
    let of = wanted_type(None, &a);
    let code = wanted_code(None, a)?;
    Ok(Typed { of, code })
}

/// The tag of a `switch`, which is `true` if there is none.
pub fn tag(alloc: Global, walk: &mut Walk, e: &Option<Written>) -> Result<Typed, Refusal>
    ensures { Walks (spec.tag e.now walk.old) result walk.new }
{
    match e {
        Some(e) => {
            let a = check_value(alloc, &walk.names, &mut walk.marks, e)?;
            tag_value(a)
        }
        None => Ok(Typed {
            of: ValueType::basic(Basic::Bool),
            code: Expr::Value(Value::Flag(true)),
        }),
    }
}

/// The types of what a `range` over an operand of the kind gives.
pub fn ranged_types(alloc: Global, kind: OperandKind) -> Result<Items<ValueType>, NoMemory>
    ensures { IfOk result (λ ts. ts ≡ spec.ranged_types kind) }
{
    let mut types = Items::new(alloc);
    if kind.is_text() {
        types.push(ValueType::basic(Basic::Int))?;
        types.push(ValueType::basic(Basic::Int32))?;
        return Ok(types);
    }
    match kind {
        OperandKind::Typed(of) if of.is_channel() => {
            types.push(of.element())?;
        }
        _ => {
            types.push(ValueType::basic(Basic::Int))?;
            types.push(ValueType::basic(Basic::Int))?;
        }
    }
    Ok(types)
}

/// What a `range` goes over: a string or a channel.
pub fn ranged_over(a: Argument) -> Result<Expr, Refusal>
    ensures { Gives (spec.ranged_over a) result }
{
    measurable(a)
}

fn all_blank(names: &[Name]) -> bool
    ensures { result ≡ spec.all_blank names.now }
{
    names.iter().all(|name| is_blank(name.text.bytes()))
}

/// Names that are declared for so many values: not more than there are, and not all `_`.
pub fn count_names(at: u32, count: usize, names: &[Name]) -> Result<(), Refusal>
    ensures { Gives (spec.count_names at count names.now) result }
{
    match names {
        [] => Ok(()),
        names => {
            if names.len() > count {
                Err(Refusal::at(at, SourceKind::WrongCount))
            } else if all_blank(names) {
                Err(Refusal::at(at, SourceKind::Redeclared))
            } else {
                Ok(())
            }
        }
    }
}

/// What stands behind `range`, whose statement is at an offset.
#[tactic(auto, unfolding(crate::specs::Bodies::ranged))]
pub fn ranged(
    alloc: Global,
    walk: &mut Walk,
    at: u32,
    names: &[Name],
    over: &Written,
) -> Result<Ranged, Refusal>
    ensures { Walks (spec.ranged at names.now over.now walk.old) result walk.new }
{
    let a = check_value(alloc, &walk.names, &mut walk.marks, over)?;
    let kind = a.kind();
    let types = ranged_types(alloc, kind)?;
    count_names(at, types.len(), names)?;
    let code = ranged_over(a)?;
    let targets = walk.declare_all(alloc, names, types.as_slice())?;
    Ok(Ranged {
        text: kind.is_text(),
        targets,
        code,
    })
}

fn target_at(targets: &[Target], index: usize) -> Target
    ensures { result ≡ spec.target_at targets.now index }
{
    match item(targets, index) {
        Some(target) => *target,
        None => Target::Blank,
    }
}

/// A `range` over a string or a channel, with its targets and its list.
pub fn range_node(text: bool, targets: &[Target], over: Expr, body: u64) -> NodeForm
    ensures { result ≡ spec.range_node text targets.now over body }
{
    if text {
        NodeForm::RangeText {
            offset: target_at(targets, 0),
            rune: target_at(targets, 1),
            over,
            body,
        }
    } else {
        NodeForm::RangeChannel {
            value: target_at(targets, 0),
            over,
            body,
        }
    }
}
