//! The part of a frame in a send, a receive or a `select`.
ghost use Rattle.std.specs.Prelude.{◌≡◌, [], ◌∷◌, IfOk};
ghost use Rattle.std.specs.Option.{option_copied};
ghost use Rattle.go_step.specs.Parts as spec;

use crate::loops::form_at;
use go_meaning::{Item, NodeForm, Program, Stack, Target, Value};
use std::alloc::{AllocError, Global};

/// What a receive puts in the place of its operands.
#[derive(Clone, Copy, Debug, PartialEq, Eq)]
pub enum Taking {
    Nothing,
    /// The value.
    One,
    /// The value, and above it whether it was sent.
    Both,
    /// The variable of a loop takes a value that was sent; without one the loop is over.
    Loop(Target),
}

/// A send of the value under so many others. Then so many values go, and the items take the place of the head.
#[derive(Debug, Drop)]
pub struct Offer {
    pub channel: Option<u32>,
    pub below: usize,
    pub pops: usize,
    pub items: Stack<Item>,
}

/// A receive. Then so many values go, and the items take the place of the head.
#[derive(Debug, Drop)]
pub struct Want {
    pub channel: Option<u32>,
    pub taking: Taking,
    pub pops: usize,
    pub items: Stack<Item>,
}

/// A default clause: so many values go, and the items take the place of the head.
#[derive(Debug, Drop)]
pub struct Entry {
    pub pops: usize,
    pub items: Stack<Item>,
}

/// What a frame does with a channel, or a clause of its `select`.
#[derive(Debug, Drop)]
pub enum Part {
    Offers(Offer),
    Wants(Want),
    Default(Entry),
}

fn offer_part(alloc: Global, stack: &Stack<Value>) -> Option<Part>
    ensures { result ≡ spec.offer_part stack.now }
{
    match stack.peek(1) {
        Some(Value::Channel(channel)) => Some(Part::Offers(Offer {
            channel: *channel,
            below: 0,
            pops: 2,
            items: Stack::new(alloc),
        })),
        _ => None,
    }
}

fn want_part(stack: &Stack<Value>, taking: Taking, items: Stack<Item>) -> Option<Part>
    ensures { result ≡ spec.want_part taking items stack.now }
{
    match stack.peek(0) {
        Some(Value::Channel(channel)) => Some(Part::Wants(Want {
            channel: *channel,
            taking,
            pops: 1,
            items,
        })),
        _ => None,
    }
}

fn pull_part(
    alloc: Global,
    list: u64,
    index: u64,
    form: Option<&NodeForm>,
    stack: &Stack<Value>,
) -> Result<Option<Part>, AllocError>
    ensures { IfOk result (λ o. o ≡ spec.pull_part list index (option_copied form.entry) stack.now) }
{
    match form {
        Some(NodeForm::RangeChannel { value, body, .. }) => {
            let mut items = Stack::new(alloc);
            items.push(Item::Pull(list, index))?;
            items.push(Item::Run(*body, 0))?;
            Ok(want_part(stack, Taking::Loop(*value), items))
        }
        _ => Ok(None),
    }
}

/// The part of an item that is no `select`.
pub fn plain_part(
    alloc: Global,
    program: &Program,
    item: &Item,
    stack: &Stack<Value>,
) -> Result<Option<Part>, AllocError>
    ensures { IfOk result (λ o. o ≡ spec.plain_part program.now item.now stack.now) }
{
    match item {
        Item::Send => Ok(offer_part(alloc, stack)),
        Item::Recv => Ok(want_part(stack, Taking::One, Stack::new(alloc))),
        Item::RecvOk => Ok(want_part(stack, Taking::Both, Stack::new(alloc))),
        Item::Pull(list, index) => {
            let form = form_at(program, *list, *index);
            pull_part(alloc, *list, *index, form, stack)
        }
        _ => Ok(None),
    }
}
