//! Programs and events without counters.
ghost use Rattle.std.specs.Prelude.{◌≡◌, map, IfOk};
ghost use Rattle.go_meaning.specs.Erasing as spec;

use go_ast::NoMemory;
use go_meaning::laws::covering;
use go_meaning::{
    Event, Node, NodeForm, Program, copy_functions, copy_globals, copy_node, copy_packages,
};
use sqlite_items::Items;
use std::alloc::Global;

/// Whether a statement is a counter.
fn is_counter(form: &NodeForm) -> bool
    ensures { result ≡ spec.is_count form.now }
{
    matches!(form, NodeForm::Count(_))
}

/// A list of statements without its counters.
fn drop_counters(alloc: Global, list: &[Node]) -> Result<Items<Node>, NoMemory>
    ensures { IfOk result (λ rest. rest ≡ spec.drop_counts list.now) }
{
    let mut rest = Items::new(alloc);
    for node in list {
        if !is_counter(&node.form) {
            rest.push(copy_node(alloc, node)?)?;
        }
    }
    Ok(rest)
}

/// All lists without their counters.
fn erased_lists(alloc: Global, lists: &[Items<Node>]) -> Result<Items<Items<Node>>, NoMemory>
    ensures { IfOk result (λ erased. erased ≡ map spec.drop_counts lists.now) }
{
    let mut erased = Items::new(alloc);
    for list in lists {
        erased.push(drop_counters(alloc, list.as_slice())?)?;
    }
    Ok(erased)
}

/// The program without its counters and units.
pub fn erase_program(alloc: Global, program: &Program) -> Result<Program, NoMemory>
    ensures { IfOk result (λ erased. erased ≡ spec.erase_program program.now) }
{
    program.known();
    covering();
    Ok(Program::new(
        copy_packages(alloc, program.packages())?,
        copy_functions(alloc, program.functions())?,
        erased_lists(alloc, program.lists())?,
        copy_globals(alloc, program.globals())?,
        0,
        program.main(),
    ))
}

/// The events that are no counter steps.
pub fn erase_events(alloc: Global, events: &[Event]) -> Result<Vec<Event>, NoMemory>
    ensures { IfOk result (λ rest. rest.items ≡ spec.erase_events events.now) }
{
    let mut rest = Vec::new(alloc);
    for event in events {
        match event {
            Event::Step { .. } => rest.push(*event)?,
            Event::Count { .. } => (),
        }
    }
    Ok(rest)
}
