//! What goroutines wait for.
ghost use Rattle.std.specs.Prelude.{◌≡◌, ◌<◌, ◌≤◌, ◌-◌, ◌+◌, List, length, slice_get, is_some};
ghost use Rattle.std.specs.Option.{option_copied};
ghost use Rattle.go_meaning.specs.Operations as operations;
ghost use Rattle.go_meaning.specs.Channels as channels;
ghost use Rattle.go_meaning.specs.Programs.{form_at};
ghost use Rattle.go_meaning.specs.declared.config.Frame.{Frame as FrameOf};
ghost use Rattle.go_step.specs.Ways as ways;

use go_meaning::{
    Channel, Comm, CommClause, Config, Frame, Goroutine, Item, NodeForm, Program, Stack, Value,
};

/// What a goroutine does with a channel, or a clause of its `select`.
#[derive(Clone, Copy, Debug, PartialEq, Eq)]
pub enum Way {
    Neither,
    Offers(Option<u32>),
    Wants(Option<u32>),
    /// The default clause.
    Default,
}

fn channel(config: &Config, number: Option<u32>) -> Option<&Channel>
    ensures { option_copied result ≡ operations.channel_at config.now number }
{
    match number {
        Some(k) => config.channels.get(k as usize),
        None => None,
    }
}

fn can_send(channel: Option<&Channel>) -> bool
    ensures { result ≡ ways.can_send (option_copied channel.entry) }
{
    match channel {
        Some(ch) => ch.closed || (ch.values.len() as u64) < ch.capacity,
        None => false,
    }
}

fn can_receive(channel: Option<&Channel>) -> bool
    ensures { result ≡ ways.can_receive (option_copied channel.entry) }
{
    match channel {
        Some(ch) => ch.values.len() > 0 || ch.closed,
        None => false,
    }
}

/// Whether it goes on without a partner. A default clause is not looked at.
pub fn goes_alone(config: &Config, way: Way) -> bool
    ensures { result ≡ ways.goes_alone config.now way }
{
    match way {
        Way::Neither => false,
        Way::Offers(o) => can_send(channel(config, o)),
        Way::Wants(o) => can_receive(channel(config, o)),
        Way::Default => false,
    }
}

fn is_direct(config: &Config, o: Option<u32>, p: Option<u32>) -> bool
    ensures { result ≡ channels.is_direct config.now o p }
{
    let (Some(k), Some(l)) = (o, p) else {
        return false;
    };
    match channel(config, o) {
        Some(ch) => k == l && (ch.capacity == 0 && !ch.closed),
        None => false,
    }
}

/// Whether the two go on in one step.
pub fn meets(config: &Config, way: Way, other: Way) -> bool
    ensures { result ≡ ways.meets config.now way other }
{
    match (way, other) {
        (Way::Offers(o), Way::Wants(p)) => is_direct(config, o, p),
        (Way::Wants(p), Way::Offers(o)) => is_direct(config, o, p),
        _ => false,
    }
}

pub(crate) fn offer(stack: &Stack<Value>) -> Way
    ensures { result ≡ ways.offer stack.now }
{
    match stack.peek(1) {
        Some(Value::Channel(o)) => Way::Offers(*o),
        _ => Way::Neither,
    }
}

pub(crate) fn want(stack: &Stack<Value>) -> Way
    ensures { result ≡ ways.want stack.now }
{
    match stack.peek(0) {
        Some(Value::Channel(o)) => Way::Wants(*o),
        _ => Way::Neither,
    }
}
