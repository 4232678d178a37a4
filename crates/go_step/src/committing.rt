//! What the acts of the frame that runs leave.
#![tactic(auto, unfolding(go_meaning::specs::Moves::put, go_meaning::specs::Fitting::IsFitting))]

ghost use Rattle.std.specs.Prelude.{◌≡◌, ◌<◌, length};
ghost use Rattle.go_meaning.specs.Fitting.{IsFitting};
ghost use Rattle.go_step.specs.Puts as puts;

use crate::deferrals::defers;
use crate::frames::{advances, assigns, consume, panics, pushes, replaces};
use crate::marks::{breaks, continues, falls};
use crate::worlds::{closes, locks, makes, new_channel, sets_group, writes};
use go_meaning::{Act, Config, Frame, Program};
use std::alloc::{AllocError, Global};

/// Whether an act that changes its frame, and at most variables, has a step. `false` and an `Err` change nothing.
pub fn frame_act(
    alloc: Global,
    program: &Program,
    config: &mut Config,
    frame: &mut Frame,
    act: Act,
) -> Result<bool, AllocError>
    requires kind { puts.IsOfFrame act }
    requires control { 0 < length frame.old.control }
    requires fits { IsFitting act config.old frame.old.stack }
    ensures { puts.PutsFrame program.now config.old frame.old act result config.new frame.new }
{
    match act {
        Act::Stuck | Act::Waits => Ok(false),
        Act::Replaces(count, items) => {
            replaces(frame, count, items)?;
            Ok(true)
        }
        Act::Pushes(count, value) => {
            pushes(frame, count, value)?;
            Ok(true)
        }
        Act::Assigns(target, rest) => Ok(assigns(config, frame, target, rest)),
        Act::Advances {
            offset,
            at,
            rune,
            code,
            next,
            items,
        } => {
            advances(config, frame, (offset, at), (rune, code), next, items)?;
            Ok(true)
        }
        Act::Breaks(marks) => {
            breaks(frame, marks);
            Ok(true)
        }
        Act::Continues(marks) => {
            continues(frame, marks);
            Ok(true)
        }
        Act::Falls(list) => {
            falls(frame, list);
            Ok(true)
        }
        Act::Defers(deferral) => defers(alloc, program, frame, deferral),
        Act::Panics(message) => {
            panics(frame, message);
            Ok(true)
        }
        _ => unreachable!(),
    }
}

/// Whether an act that changes more of the configuration has a step. An `Err` changes nothing.
pub fn world_act(
    alloc: Global,
    program: &Program,
    config: &mut Config,
    frame: &mut Frame,
    act: Act,
) -> Result<bool, AllocError>
    requires kind { puts.IsOfWorld act }
    requires control { 0 < length frame.old.control }
    ensures { puts.PutsFrame program.now config.old frame.old act result config.new frame.new }
{
    match act {
        Act::Stops(end) => {
            config.end = Some(end);
            Ok(true)
        }
        Act::Ends(count, end) => {
            consume(frame, count);
            config.end = Some(end);
            Ok(true)
        }
        Act::Prints(count, text) => {
            writes(config, frame, count, &text)?;
            Ok(true)
        }
        Act::Locks(mutex, locked) => {
            consume(frame, 0);
            locks(config, mutex, locked);
            Ok(true)
        }
        Act::Sets {
            pops,
            group,
            number,
        } => {
            consume(frame, pops);
            sets_group(config, group, number);
            Ok(true)
        }
        Act::Makes {
            pops,
            zero,
            capacity,
        } => {
            makes(config, frame, pops, new_channel(alloc, zero, capacity))?;
            Ok(true)
        }
        Act::Closes(channel) => {
            consume(frame, 1);
            closes(alloc, config, channel);
            Ok(true)
        }
        _ => unreachable!(),
    }
}
