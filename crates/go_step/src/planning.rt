//! What the item at the head of a control list does.
#![tactic(auto, unfolding(go_meaning::specs::Acts::act_of, go_meaning::specs::Operations::on_value, go_meaning::specs::Operations::on_flag))]

ghost use Rattle.std.specs.Prelude.{◌≡◌, IfOk};
ghost use Rattle.std.specs.Option.{option_copied};
ghost use Rattle.go_meaning.specs.Acts as acts;
ghost use Rattle.go_meaning.specs.Acts.{act_of};
ghost use Rattle.go_meaning.specs.Operations.{on_flag, on_value, top};
ghost use Rattle.go_meaning.specs.Values as values;
ghost use Rattle.go_step.specs.Effects.{IsPlain};

use crate::choices::{branch, compared_case, match_next};
use crate::comparison::is_equal;
use crate::expressions::evaluation;
use crate::loops::{form_at, loop_items, next, run, tested};
use crate::operations::operation;
use crate::ranges::each;
use crate::values::{and_then, assigned, dropped, or_else, returned};
use go_meaning::{Act, Config, Item, NodeForm, Program, Stack, Value};
use std::alloc::{AllocError, Global};

fn flag_branch(
    alloc: Global,
    then: u64,
    other: Option<u64>,
    stack: &Stack<Value>,
) -> Result<Act, AllocError>
    ensures { IfOk result (λ a. a ≡ on_flag (top 0 stack.now) (acts.branch then other)) }
{
    match stack.peek(0) {
        Some(Value::Flag(b)) => branch(alloc, then, other, *b),
        _ => Ok(Act::Stuck),
    }
}

fn flag_test(
    alloc: Global,
    list: u64,
    index: u64,
    form: Option<&NodeForm>,
    stack: &Stack<Value>,
) -> Result<Act, AllocError>
    ensures { IfOk result (λ a. a ≡ on_flag (top 0 stack.now) (acts.decided list index (option_copied form.entry))) }
{
    match stack.peek(0) {
        Some(Value::Flag(b)) => tested(alloc, list, index, form, *b),
        _ => Ok(Act::Stuck),
    }
}

fn tag_match(
    alloc: Global,
    list: u64,
    index: u64,
    number: u64,
    form: Option<&NodeForm>,
    stack: &Stack<Value>,
) -> Result<Act, AllocError>
    ensures { IfOk result (λ a. a ≡ on_value (top 0 stack.now) (λ tag. acts.matched list index number (option_copied form.entry))) }
{
    match stack.peek(0) {
        Some(_) => match_next(alloc, list, index, number, form),
        None => Ok(Act::Stuck),
    }
}

fn tag_compare(
    alloc: Global,
    list: u64,
    index: u64,
    number: u64,
    form: Option<&NodeForm>,
    stack: &Stack<Value>,
) -> Result<Act, AllocError>
    ensures { IfOk result (λ a. a ≡ on_value (top 0 stack.now) (λ v. on_value (top 1 stack.now) (λ tag. acts.compare list index number (option_copied form.entry) (values.is_equal v tag)))) }
{
    match (stack.peek(0), stack.peek(1)) {
        (Some(v), Some(tag)) => compared_case(alloc, list, index, number, form, is_equal(v, tag)),
        _ => Ok(Act::Stuck),
    }
}

// Items that need no statement of the program.
fn plain(
    alloc: Global,
    program: &Program,
    config: &Config,
    item: &Item,
    slots: &[Option<Value>],
    stack: &Stack<Value>,
) -> Result<Act, AllocError>
    requires { IsPlain item.now }
    ensures { IfOk result (λ a. a ≡ act_of program.now config.now item.now slots.now stack.now) }
{
    match item {
        Item::Eval(e) => evaluation(alloc, config, slots, e),
        Item::Drop(count) => Ok(dropped(alloc, *count, stack)),
        Item::Assign(targets) => assigned(alloc, targets, stack),
        Item::Do(op) => operation(alloc, config, op, stack),
        Item::And(e) => and_then(alloc, e, stack),
        Item::Or(e) => or_else(alloc, e, stack),
        Item::Branch(then, other) => flag_branch(alloc, *then, *other, stack),
        Item::Leave => Ok(Act::Replaces(0, Stack::new(alloc))),
        Item::Spawn(function) => Ok(Act::Spawns(*function)),
        Item::Defer(call) => Ok(Act::Defers(*call)),
        Item::Call(function) => Ok(Act::Calls(*function)),
        Item::Return(count) => Ok(returned(*count, stack)),
        Item::Unwind(message) => Ok(Act::Unwinds(message.clone()?)),
        Item::Send | Item::Recv | Item::RecvOk => Ok(Act::Waits),
        _ => unreachable!(),
    }
}

/// What an item at the head of a control list does, in a frame with these slots and this stack. Items that wait for a
/// channel wait.
///
/// A number that has no room in the type of the act's number, as no checked program meets, is answered as want of memory:
/// the number of a case expression after 2^64 - 1, and an exit status that has no 64 bits with its sign.
pub fn plan(
    alloc: Global,
    program: &Program,
    config: &Config,
    item: &Item,
    slots: &[Option<Value>],
    stack: &Stack<Value>,
) -> Result<Act, AllocError>
    ensures { IfOk result (λ a. a ≡ act_of program.now config.now item.now slots.now stack.now) }
{
    match item {
        Item::Run(list, index) => run(alloc, program, *list, *index),
        Item::Loop(list, index) => {
            loop_items(alloc, *list, *index, form_at(program, *list, *index))
        }
        Item::Test(list, index) => {
            flag_test(alloc, *list, *index, form_at(program, *list, *index), stack)
        }
        Item::Next(list, index) => next(alloc, *list, *index, form_at(program, *list, *index)),
        Item::Each(list, index) => {
            each(alloc, *list, *index, form_at(program, *list, *index), stack)
        }
        Item::Match(list, index, number) => {
            let form = form_at(program, *list, *index);
            tag_match(alloc, *list, *index, *number, form, stack)
        }
        Item::Compare(list, index, number) => {
            let form = form_at(program, *list, *index);
            tag_compare(alloc, *list, *index, *number, form, stack)
        }
        Item::Pull(_, _) | Item::Pick(_, _) => Ok(Act::Waits),
        plain_item => plain(alloc, program, config, plain_item, slots, stack),
    }
}
