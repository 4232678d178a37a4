//! What the items of loops do, and the statements at places.
ghost use Rattle.std.specs.Prelude.{◌≡◌, ◌+◌, ◌^◌, ◌<◌, IfOk, IfSome};
ghost use Rattle.std.specs.Option.{option_copied};
ghost use Rattle.go_meaning.specs.Acts as acts;
ghost use Rattle.go_meaning.specs.Programs as programs;

use crate::items::{push_eval, push_part};
use crate::statements::statement;
use go_meaning::{Act, Item, NodeForm, Program, Stack};
use std::alloc::{AllocError, Global};

/// The statement at a place: the number of its list, and its index there.
pub fn form_at(program: &Program, list: u64, index: u64) -> Option<&NodeForm>
    ensures form { option_copied result ≡ programs.form_at program.now list index }
    ensures room { IfSome result (λ f. index + 1 < 2 ^ 64) }
{
    let lists = program.lists();
    if list >= lists.len() as u64 {
        return None;
    }
    let nodes = lists[list as usize].as_slice();
    if index >= nodes.len() as u64 {
        return None;
    }
    Some(&nodes[index as usize].form)
}

/// What the statement at a place does, and what follows it.
pub fn run(alloc: Global, program: &Program, list: u64, index: u64) -> Result<Act, AllocError>
    ensures { IfOk result (λ a. a ≡ acts.run list index (programs.form_at program.now list index)) }
{
    match form_at(program, list, index) {
        Some(form) => statement(alloc, list, index, form),
        None => Ok(Act::Replaces(0, Stack::new(alloc))),
    }
}

/// What a loop does before its test.
pub fn loop_items(
    alloc: Global,
    list: u64,
    index: u64,
    form: Option<&NodeForm>,
) -> Result<Act, AllocError>
    ensures { IfOk result (λ a. a ≡ acts.loop list index (option_copied form.entry)) }
{
    let mut items = Stack::new(alloc);
    match form {
        Some(
            NodeForm::For {
                test: Some(test),
                ..
            },
        ) => {
            items.push(Item::Test(list, index))?;
            push_eval(alloc, &mut items, test)?;
            Ok(Act::Replaces(0, items))
        }
        Some(
            NodeForm::For {
                test: None,
                body,
                ..
            },
        ) => {
            items.push(Item::Next(list, index))?;
            items.push(Item::Run(*body, 0))?;
            Ok(Act::Replaces(0, items))
        }
        _ => Ok(Act::Stuck),
    }
}

/// What a loop does after its test.
#[tactic(auto, unfolding(go_meaning::specs::Acts::decided))]
pub fn tested(
    alloc: Global,
    list: u64,
    index: u64,
    form: Option<&NodeForm>,
    goes_on: bool,
) -> Result<Act, AllocError>
    ensures { IfOk result (λ a. a ≡ acts.decided list index (option_copied form.entry) goes_on) }
{
    let mut items = Stack::new(alloc);
    match form {
        Some(NodeForm::For { body, .. }) => {
            if goes_on {
                items.push(Item::Next(list, index))?;
                items.push(Item::Run(*body, 0))?;
                Ok(Act::Replaces(1, items))
            } else {
                Ok(Act::Replaces(1, items))
            }
        }
        _ => Ok(Act::Stuck),
    }
}

/// What a loop does after its body.
pub fn next(
    alloc: Global,
    list: u64,
    index: u64,
    form: Option<&NodeForm>,
) -> Result<Act, AllocError>
    ensures { IfOk result (λ a. a ≡ acts.next list index (option_copied form.entry)) }
{
    let mut items = Stack::new(alloc);
    match form {
        Some(NodeForm::For { last, .. }) => {
            items.push(Item::Loop(list, index))?;
            push_part(alloc, &mut items, last)?;
            Ok(Act::Replaces(0, items))
        }
        _ => Ok(Act::Stuck),
    }
}
