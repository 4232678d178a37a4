//! Counters in the lists of a program.
ghost use Rattle.std.specs.Prelude.{◌≡◌, ◌<◌, ◌+◌, ◌^◌, ◌++◌, ◌∷◌, [], cond, true, IfOk, OnOk};
ghost use Rattle.go_meaning.specs.Units as spec;

use crate::breakers::{is_breaker, starts_first, starts_later};
use go_ast::{NoMemory, Span};
use go_meaning::{Node, NodeForm, copy_node};
use sqlite_items::Items;
use std::alloc::Global;

/// The counter of a unit.
fn counter(unit: u32) -> Node
    ensures { result ≡ spec.counter unit }
{
    Node {
        span: Span { start: 0, end: 0 },
        form: NodeForm::Count(unit),
    }
}

/// Puts a statement behind others, and before it the counter of a unit that starts there. The number of the next unit is
/// given back.
fn put_node(
    alloc: Global,
    counted: &mut Items<Node>,
    unit: u32,
    starts: bool,
    node: &Node,
) -> Result<u32, NoMemory>
    requires { starts ≡ true → unit + 1 < 2 ^ 32 }
    ensures counted { OnOk result (counted.new ≡ counted.old ++ cond starts (spec.counter unit ∷ node.now ∷ []) (node.now ∷ [])) }
    ensures next { IfOk result (λ next. next ≡ cond starts (unit + 1) unit) }
{
    let mut next = unit;
    if starts {
        counted.push(counter(unit))?;
        next += 1;
    }
    counted.push(copy_node(alloc, node)?)?;
    Ok(next)
}

/// Puts the later statements of a list behind others, with the counters of the units that start there.
fn put_nodes(
    alloc: Global,
    counted: &mut Items<Node>,
    unit: u32,
    after_breaker: bool,
    nodes: &[Node],
) -> Result<u32, NoMemory>
    requires { unit + spec.units_from after_breaker nodes.now < 2 ^ 32 }
    ensures counted { OnOk result (counted.new ≡ counted.old ++ spec.counted_from unit after_breaker nodes.now) }
    ensures next { IfOk result (λ next. next ≡ unit + spec.units_from after_breaker nodes.now) }
{
    let mut next = unit;
    let mut after = after_breaker;
    for node in nodes {
        next = put_node(alloc, counted, next, starts_later(after, &node.form), node)?;
        after = is_breaker(&node.form);
    }
    Ok(next)
}

/// Puts a list with its counters into a list, and gives the number of the next unit.
pub(crate) fn counted_list(
    alloc: Global,
    unit: u32,
    list: &[Node],
) -> Result<(Items<Node>, u32), NoMemory>
    requires { unit + spec.units_of_list list.now < 2 ^ 32 }
    ensures counted { IfOk result (λ r. r.0 ≡ spec.counted_list unit list.now) }
    ensures next { IfOk result (λ r. r.1 ≡ unit + spec.units_of_list list.now) }
{
    let mut counted = Items::new(alloc);
    let [first, rest @ ..] = list else {
        counted.push(counter(unit))?;
        return Ok((counted, unit + 1));
    };
    let next = put_node(alloc, &mut counted, unit, starts_first(&first.form), first)?;
    let next = put_nodes(alloc, &mut counted, next, is_breaker(&first.form), rest)?;
    Ok((counted, next))
}

/// A list of a function that isn't cut.
pub(crate) fn same_list(alloc: Global, list: &[Node]) -> Result<Items<Node>, NoMemory>
    ensures { IfOk result (λ copies. copies ≡ list.now) }
{
    let mut copies = Items::new(alloc);
    for node in list {
        copies.push(copy_node(alloc, node)?)?;
    }
    Ok(copies)
}
