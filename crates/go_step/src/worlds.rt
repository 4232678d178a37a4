//! What acts leave of the package variables, channels, mutexes, wait groups and output.
ghost use Rattle.std.specs.Prelude.{◌≡◌, [], ◌∷◌, ◌++◌, Some, length, drop, slice_get, slice_set, OnOk, OnErr};
ghost use Rattle.go_meaning.specs.Moves as moves;
ghost use Rattle.go_step.specs.Puts as puts;

use crate::frames::{consume, pushes};
use go_ast::Text;
use go_meaning::{Channel, Config, Frame, Queue, Value};
use std::alloc::{AllocError, Global};

/// Writes a text. An `Err` changes nothing.
pub fn writes(
    config: &mut Config,
    frame: &mut Frame,
    count: u64,
    text: &Text,
) -> Result<(), AllocError>
    ensures world { OnOk result (config.new ≡ moves.write text.now config.old) }
    ensures frame { OnOk result (frame.new ≡ puts.consumed count frame.old) }
    ensures same { OnErr result (config.new ≡ config.old) }
    ensures err { OnErr result (frame.new ≡ frame.old) }
{
    config.output.append(text.bytes())?;
    consume(frame, count);
    Ok(())
}

/// A mutex is locked, or no longer. One that isn't there changes nothing.
#[tactic(auto, using(std::proofs::lemmas::List::set_past))]
pub fn locks(config: &mut Config, mutex: u64, locked: bool)
    ensures { config.new ≡ record config.old { mutexes = slice_set config.old.mutexes mutex locked } }
{
    if mutex < config.mutexes.len() as u64 {
        config.mutexes.set(mutex as usize, locked);
    }
}

/// A wait group has a number. One that isn't there changes nothing.
#[tactic(auto, using(std::proofs::lemmas::List::set_past))]
pub fn sets_group(config: &mut Config, group: u64, number: u32)
    ensures { config.new ≡ record config.old { groups = slice_set config.old.groups group number } }
{
    if group < config.groups.len() as u64 {
        config.groups.set(group as usize, number);
    }
}

/// A channel with no values. It takes no memory.
pub fn new_channel(alloc: Global, zero: Value, capacity: u64) -> Channel
    ensures { result ≡ moves.new_channel zero capacity }
{
    Channel {
        capacity,
        zero,
        values: Queue::new(alloc),
        closed: false,
    }
}

/// Makes a channel, whose number takes the place of so many values. An `Err` changes nothing; a channel whose number has no
/// 32 bits is answered so too.
pub fn makes(
    config: &mut Config,
    frame: &mut Frame,
    count: u64,
    channel: Channel,
) -> Result<(), AllocError>
    ensures world { OnOk result (config.new ≡ record config.old { channels = config.old.channels ++ channel ∷ [] }) }
    ensures frame { OnOk result (frame.new ≡ record frame.old { stack = Value.Channel (Some (length config.old.channels)) ∷ drop count frame.old.stack; control = drop 1 frame.old.control }) }
    ensures same { OnErr result (config.new ≡ config.old) }
    ensures err { OnErr result (frame.new ≡ frame.old) }
{
    let len = config.channels.len();
    let Ok(number) = u32::try_from(len) else {
        return Err(AllocError);
    };
    config.channels.push(channel)?;
    match pushes(frame, count, Value::Channel(Some(number))) {
        Ok(()) => Ok(()),
        Err(e) => {
            config.channels.cut(len);
            Err(e)
        }
    }
}

/// Closes a channel. One that isn't there changes nothing.
#[tactic(auto, using(std::proofs::lemmas::List::set_past))]
pub fn closes(alloc: Global, config: &mut Config, channel: u32)
    ensures { config.new ≡ moves.set_closed channel config.old (slice_get config.old.channels channel) }
{
    let at = channel as usize;
    if at < config.channels.len() {
        let hole = new_channel(alloc, Value::Flag(false), 0);
        let mut closed = config.channels.replace(at, hole);
        closed.closed = true;
        let _hole = config.channels.replace(at, closed);
    }
}
