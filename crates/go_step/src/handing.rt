//! Values that go from frames to channels and frames.
//!
//! What can want memory comes first: items are put under the head of a control, and a value that is none on a stack. Then the
//! value moves.
ghost use Rattle.std.specs.Prelude.{◌≡◌, ◌<◌, ◌≤◌, [], ◌∷◌, length, take, drop, slice_get, true, OnOk, OnErr, Some};
ghost use Rattle.std.specs.Result.{IfErr};
ghost use Rattle.go_meaning.specs.Moves as moves;
ghost use Rattle.go_step.specs.Parts as parts;
ghost use Rattle.go_step.specs.Handing as spec;

use crate::parts::{Offer, Taking, Want};
use crate::worlds::new_channel;
use go_meaning::{Channel, Frame, Item, Row, Stack, Target, Value, Variable};
use std::alloc::{AllocError, Global};

// Puts items under the head. An `Err` changes nothing.
#[tactic(auto, using(crate::proofs::Handed::tucks))]
fn tuck(control: &mut Stack<Item>, items: Stack<Item>) -> Result<(), AllocError>
    requires { 0 < length control.old }
    ensures ok { OnOk result (control.new ≡ spec.tucked items control.old) }
    ensures err { OnErr result (control.new ≡ control.old) }
{
    let mut more = items;
    more.push(Item::Leave)?;
    let head = control.swap_top(Item::Leave);
    match control.replace_top(more) {
        Ok(()) => {
            let _placeholder = control.swap_top(head);
            Ok(())
        }
        Err(e) => {
            let _placeholder = control.swap_top(head);
            Err(e)
        }
    }
}

// So many items under the head go.
#[tactic(auto, using(crate::proofs::Handed::untucks))]
fn untuck(control: &mut Stack<Item>, count: usize)
    requires { count < length control.old }
    ensures { control.new ≡ spec.untucked count control.old }
{
    let head = control.swap_top(Item::Leave);
    control.cut(count);
    let _last = control.swap_top(head);
}

// Room for items and one value more. An `Err` changes nothing.
fn prepare(frame: &mut Frame, items: Stack<Item>) -> Result<(), AllocError>
    requires { 0 < length frame.old.control }
    ensures ok { OnOk result (frame.new ≡ spec.prepared items frame.old) }
    ensures err { OnErr result (frame.new ≡ frame.old) }
{
    frame.stack.push(Value::Flag(false))?;
    match tuck(&mut frame.control, items) {
        Ok(()) => Ok(()),
        Err(e) => {
            frame.stack.drop_top(1);
            Err(e)
        }
    }
}

// A slot takes a value. Any other target drops it.
#[tactic(auto, using(std::proofs::lemmas::List::set_past))]
fn set_slot(frame: &mut Frame, target: Target, value: Value)
    ensures { frame.new ≡ record frame.old { slots = moves.set_slot target value frame.old.slots } }
{
    if let Target::Variable(Variable::Slot(slot)) = target {
        if slot < frame.slots.len() as u64 {
            frame.slots.set(slot as usize, Some(value));
        }
    }
}

// A loop takes a value, or is over.
fn finish_loop(
    frame: &mut Frame,
    target: Target,
    pops: usize,
    count: usize,
    value: Value,
    sent: bool,
)
    requires pops { pops < length frame.old.stack }
    requires count { count < length frame.old.control }
    ensures { frame.new ≡ spec.finished (Taking.Loop target) pops count value sent frame.old }
{
    if sent {
        set_slot(frame, target, value);
        frame.stack.drop_top(1);
        frame.control.drop_top(1);
    } else {
        frame.stack.drop_top(1);
        frame.stack.cut(pops);
        frame.control.drop_top(1);
        frame.control.cut(count);
    }
}

// A frame with room takes a value, and whether it was sent.
fn finish(frame: &mut Frame, taking: Taking, pops: usize, count: usize, value: Value, sent: bool)
    requires some { 0 < pops }
    requires pops { pops < length frame.old.stack }
    requires count { count < length frame.old.control }
    ensures { frame.new ≡ spec.finished taking pops count value sent frame.old }
{
    match taking {
        Taking::Nothing => {
            frame.stack.drop_top(1);
            frame.stack.cut(pops);
            frame.control.drop_top(1);
        }
        Taking::One => {
            frame.stack.drop_top(1);
            frame.stack.reduce(pops, value);
            frame.control.drop_top(1);
        }
        Taking::Both => {
            let _deepest = frame.stack.swap_at(pops, value);
            frame.stack.reduce(pops, Value::Flag(sent));
            frame.control.drop_top(1);
        }
        Taking::Loop(target) => finish_loop(frame, target, pops, count, value, sent),
    }
}

// A value goes off a frame, whose head goes with the operands.
fn give(frame: &mut Frame, below: usize, pops: usize) -> Value
    requires below { below < pops }
    requires pops { pops ≤ length frame.old.stack }
    ensures value { result ≡ spec.sent below frame.old }
    ensures frame { frame.new ≡ record frame.old { stack = drop pops frame.old.stack; control = drop 1 frame.old.control } }
{
    let value = frame.stack.swap_at(below, Value::Flag(false));
    frame.stack.cut(pops);
    frame.control.drop_top(1);
    value
}

/// One frame's value goes to another's. An `Err` changes nothing.
pub fn hand(
    sender: &mut Frame,
    offer: Offer,
    receiver: &mut Frame,
    want: Want,
) -> Result<(), AllocError>
    requires offer { parts.OfferFits offer sender.old }
    requires want { parts.WantFits want receiver.old }
    ensures sender { OnOk result (sender.new ≡ parts.gone offer.pops offer.items sender.old) }
    ensures receiver { OnOk result (receiver.new ≡ parts.took want.taking want.pops want.items receiver.old (spec.sent offer.below sender.old) true) }
    ensures same { OnErr result (sender.new ≡ sender.old) }
    ensures err { OnErr result (receiver.new ≡ receiver.old) }
{
    let given = offer.items.len();
    let count = want.items.len();
    tuck(&mut sender.control, offer.items)?;
    if let Err(e) = prepare(receiver, want.items) {
        untuck(&mut sender.control, given);
        return Err(e);
    }
    let value = give(sender, offer.below, offer.pops);
    finish(receiver, want.taking, want.pops, count, value, true);
    Ok(())
}

// A channel takes a value. An `Err` gives it back and changes nothing.
#[tactic(auto, using(crate::proofs::Handed::pushes, crate::proofs::Handed::put_back))]
fn push_value(
    alloc: Global,
    channels: &mut Row<Channel>,
    at: usize,
    value: Value,
) -> Result<(), Value>
    requires { at < length channels.old }
    ensures ok { OnOk result (channels.new ≡ spec.pushed_at channels.old at value (slice_get channels.old at)) }
    ensures err { OnErr result (channels.new ≡ channels.old) }
    ensures back { IfErr result (λ v. v ≡ value) }
{
    let mut channel = channels.replace(at, new_channel(alloc, Value::Flag(false), 0));
    match channel.values.push(value) {
        Ok(()) => {
            let _hole = channels.replace(at, channel);
            Ok(())
        }
        Err(back) => {
            let _hole = channels.replace(at, channel);
            Err(back)
        }
    }
}

// A channel gives its oldest value.
#[tactic(auto, using(crate::proofs::Handed::pops))]
fn pop_value(alloc: Global, channels: &mut Row<Channel>, at: usize) -> Value
    requires { spec.HoldsAt (slice_get channels.old at) }
    ensures { spec.PopsAt channels.old at (slice_get channels.old at) result channels.new }
{
    let mut channel = channels.replace(at, new_channel(alloc, Value::Flag(false), 0));
    let Some(value) = channel.values.pop() else {
        unreachable!();
    };
    let _hole = channels.replace(at, channel);
    value
}

/// A frame's value goes to a channel. An `Err` changes nothing.
pub fn hand_over(
    alloc: Global,
    channels: &mut Row<Channel>,
    at: usize,
    frame: &mut Frame,
    offer: Offer,
) -> Result<(), AllocError>
    requires there { at < length channels.old }
    requires fits { parts.OfferFits offer frame.old }
    ensures channel { OnOk result (channels.new ≡ spec.pushed_at channels.old at (spec.sent offer.below frame.old) (slice_get channels.old at)) }
    ensures frame { OnOk result (frame.new ≡ parts.gone offer.pops offer.items frame.old) }
    ensures same { OnErr result (channels.new ≡ channels.old) }
    ensures err { OnErr result (frame.new ≡ frame.old) }
{
    let count = offer.items.len();
    tuck(&mut frame.control, offer.items)?;
    let value = frame.stack.swap_at(offer.below, Value::Flag(false));
    match push_value(alloc, channels, at, value) {
        Ok(()) => {
            frame.stack.cut(offer.pops);
            frame.control.drop_top(1);
            Ok(())
        }
        Err(value) => {
            let _hole = frame.stack.swap_at(offer.below, value);
            untuck(&mut frame.control, count);
            Err(AllocError)
        }
    }
}

/// A frame takes a value, and whether it was sent. An `Err` changes nothing.
pub fn take(frame: &mut Frame, want: Want, value: Value, sent: bool) -> Result<(), AllocError>
    requires { parts.WantFits want frame.old }
    ensures ok { OnOk result (frame.new ≡ parts.took want.taking want.pops want.items frame.old value sent) }
    ensures err { OnErr result (frame.new ≡ frame.old) }
{
    let count = want.items.len();
    prepare(frame, want.items)?;
    finish(frame, want.taking, want.pops, count, value, sent);
    Ok(())
}

/// A frame takes a channel's oldest value. An `Err` changes nothing.
pub fn take_from(
    alloc: Global,
    channels: &mut Row<Channel>,
    at: usize,
    frame: &mut Frame,
    want: Want,
) -> Result<(), AllocError>
    requires holds { spec.HoldsAt (slice_get channels.old at) }
    requires fits { parts.WantFits want frame.old }
    ensures ok { OnOk result (spec.TakesAt want channels.old at frame.old channels.new frame.new) }
    ensures same { OnErr result (channels.new ≡ channels.old) }
    ensures err { OnErr result (frame.new ≡ frame.old) }
{
    let count = want.items.len();
    prepare(frame, want.items)?;
    let value = pop_value(alloc, channels, at);
    finish(frame, want.taking, want.pops, count, value, true);
    Ok(())
}
