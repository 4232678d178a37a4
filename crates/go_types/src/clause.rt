//! What the clauses of a `switch` or `select` wait for.
ghost use Rattle.std.specs.Prelude.{◌≡◌, Ok, IfOk};
ghost use Rattle.go_types.specs.Checking.{Gives};
ghost use Rattle.go_types.specs.Walking.{Walks};
ghost use Rattle.go_types.specs.Scopes as scopes;
ghost use Rattle.go_types.specs.Bodies as spec;

use crate::cases::Seen;
use crate::check::check_value;
use crate::conditions::count_names;
use crate::constant::Constant;
use crate::fault::Refusal;
use crate::given::Typed;
use crate::operand::Term;
use crate::simple::{channel_typed, send_values};
use crate::target::old_targets;
use crate::types::ValueType;
use crate::values::{is_wanted, received};
use crate::walk::{Place, Walk};
use go_ast::{Comm as Written, Expr as WrittenExpr, Name, NoMemory, SourceKind, Target};
use go_meaning::{Comm, Expr};
use sqlite_items::Items;
use std::alloc::Global;

/// The offset of a target.
fn at_target(target: &Target) -> u32
    ensures { result ≡ scopes.at_target target.now }
{
    match target {
        Target::Plain(name) => name.at,
        Target::Member(first, _) => first.at,
    }
}

fn first_at(targets: &[Target]) -> u32
    ensures { result ≡ spec.first_at targets.now }
{
    match targets {
        [first, ..] => at_target(first),
        [] => 0,
    }
}

fn first_name_at(names: &[Name]) -> u32
    ensures { result ≡ spec.first_name_at names.now }
{
    match names {
        [first, ..] => first.at,
        [] => 0,
    }
}

/// Each target has the type of what it takes.
fn take_fits(targets: &[Target], places: &[Place], types: &[ValueType]) -> Result<(), Refusal>
    ensures { Gives (spec.take_fits targets.now places.now types.now) result }
{
    let mut left = places;
    let mut kinds = types;
    for target in targets {
        let ([place, places @ ..], [of, rest @ ..]) = (left, kinds) else {
            return Ok(());
        };
        if !is_wanted(place.wanted(), *of) {
            return Err(Refusal::at(at_target(target), SourceKind::WrongType));
        }
        left = places;
        kinds = rest;
    }
    Ok(())
}

fn take_count(targets: &[Target]) -> Result<(), Refusal>
    ensures { Gives (spec.take_count targets.now) result }
{
    if targets.len() > 2 {
        return Err(Refusal::at(first_at(targets), SourceKind::WrongCount));
    }
    Ok(())
}

#[tactic(auto, unfolding(crate::specs::Bodies::take_of))]
fn take(
    alloc: Global,
    walk: &mut Walk,
    targets: &[Target],
    channel: &WrittenExpr,
) -> Result<Comm, Refusal>
    ensures { Walks (spec.take_of targets.now channel.now walk.old) result walk.new }
{
    let places = walk.places_of(alloc, targets)?;
    let a = check_value(alloc, &walk.names, &mut walk.marks, channel)?;
    take_count(targets)?;
    let Typed { of, code } = channel_typed(a)?;
    let types = received(alloc, of)?;
    take_fits(targets, places.as_slice(), types.as_slice())?;
    Ok(Comm::Receive {
        channel: code,
        targets: old_targets(alloc, places.as_slice())?,
    })
}

#[tactic(auto, unfolding(crate::specs::Bodies::take_new_of))]
fn take_new(
    alloc: Global,
    walk: &mut Walk,
    names: &[Name],
    channel: &WrittenExpr,
) -> Result<Comm, Refusal>
    ensures { Walks (spec.take_new_of names.now channel.now walk.old) result walk.new }
{
    let a = check_value(alloc, &walk.names, &mut walk.marks, channel)?;
    count_names(first_name_at(names), 2, names)?;
    let Typed { of, code } = channel_typed(a)?;
    let types = received(alloc, of)?;
    let targets = walk.declare_all(alloc, names, types.as_slice())?;
    Ok(Comm::Receive {
        channel: code,
        targets,
    })
}

/// What a clause of a `select` waits for.
pub fn comm_of(alloc: Global, walk: &mut Walk, comm: &Written) -> Result<Comm, Refusal>
    ensures { Walks (spec.comm_of comm.now walk.old) result walk.new }
{
    match comm {
        Written::Default => Ok(Comm::Default),
        Written::Send(channel, e) => {
            let (code, value) = send_values(alloc, &walk.names, &mut walk.marks, channel, e)?;
            Ok(Comm::Send(code, value))
        }
        Written::Take { targets, channel } => take(alloc, walk, targets.as_slice(), channel),
        Written::TakeNew { names, channel } => take_new(alloc, walk, names.as_slice(), channel),
    }
}

/// At most one clause of the `select` at an offset is its `default`.
pub fn comm_seen(at: u32, seen: Seen, comm: &Written) -> Result<Seen, Refusal>
    ensures { Gives (spec.comm_seen at seen comm.now) result }
{
    match comm {
        Written::Default => seen.with_default(at),
        _ => Ok(seen),
    }
}

/// The integer or string that a constant is.
fn case_constant(term: &Term) -> Result<Option<Constant>, NoMemory>
    ensures { IfOk result (λ c. c ≡ spec.case_constant term.now) }
{
    match term {
        Term::Constant(_, Constant::Number(number)) => Ok(Some(Constant::Number(*number))),
        Term::Constant(_, Constant::Text(text)) => Ok(Some(Constant::Text(text.clone()?))),
        _ => Ok(None),
    }
}

#[tactic(auto, unfolding(crate::specs::Bodies::case_value))]
fn case_value(
    alloc: Global,
    walk: &mut Walk,
    of: ValueType,
    seen: Seen,
    e: &WrittenExpr,
) -> Result<(Expr, Seen), Refusal>
    ensures { Walks (spec.case_value of seen e.now walk.old) result walk.new }
{
    let a = check_value(alloc, &walk.names, &mut walk.marks, e)?;
    let constant = case_constant(&a.term)?;
    let at = a.at;
    let code = a.into_type(of)?;
    Ok((code, seen.with(at, constant)?))
}

fn case_values(
    alloc: Global,
    walk: &mut Walk,
    of: ValueType,
    seen: Seen,
    es: &[WrittenExpr],
) -> Result<(Items<Expr>, Seen), Refusal>
    ensures { Walks (spec.case_values of seen es.now walk.old) result walk.new }
{
    let mut codes = Items::new(alloc);
    let mut seen = seen;
    for e in es {
        let (code, more) = case_value(alloc, walk, of, seen, e)?;
        codes.push(code)?;
        seen = more;
    }
    Ok((codes, seen))
}

/// The values of a clause of the `switch` at an offset, or its `default`.
pub fn case_head(
    alloc: Global,
    walk: &mut Walk,
    at: u32,
    of: ValueType,
    seen: Seen,
    values: &Option<Items<WrittenExpr>>,
) -> Result<(Option<Items<Expr>>, Seen), Refusal>
    ensures { Walks (spec.case_head at of seen values.now walk.old) result walk.new }
{
    match values {
        Some(values) => {
            let (codes, seen) = case_values(alloc, walk, of, seen, values.as_slice())?;
            Ok((Some(codes), seen))
        }
        None => Ok((None, seen.with_default(at)?)),
    }
}
