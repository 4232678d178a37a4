//! Sends, receives and loops over channels of one goroutine without a partner.
ghost use Rattle.std.specs.Prelude.{◌≡◌, slice_get, Some, OnOk, OnErr};
ghost use Rattle.go_step.specs.declared.parts.Part.TheVariants as part;
ghost use Rattle.go_step.specs.Goroutines as goroutines;
ghost use Rattle.go_step.specs.Parts as parts;
ghost use Rattle.go_step.specs.Handing as spec;

use crate::copies::copy_value;
use crate::frames::{empty_frame, panics};
use crate::goroutines::empty_goroutine;
use crate::handing::{hand_over, take, take_from};
use crate::parts::{Offer, Part, Want};
use go_ast::Text;
use go_meaning::{Channel, Config, Frame, Row, Stack};
use std::alloc::{AllocError, Global};

// Whether a send needs no partner: its channel has room, or is closed, which panics. `false` and an `Err` change nothing.
#[tactic(auto, using(crate::proofs::Going::sends_nil, crate::proofs::Going::sends_nowhere, crate::proofs::Going::sends_closed, crate::proofs::Going::sends_full, crate::proofs::Going::sends_room))]
fn sends(
    alloc: Global,
    channels: &mut Row<Channel>,
    frame: &mut Frame,
    offer: Offer,
) -> Result<bool, AllocError>
    requires { parts.OfferFits offer frame.old }
    ensures { spec.GoesBy (part.Offers offer) channels.old frame.old result channels.new frame.new }
{
    let Some(number) = offer.channel else {
        return Ok(false);
    };
    let at = number as usize;
    let Some(channel) = channels.get(at) else {
        return Ok(false);
    };
    if channel.closed {
        panics(frame, Text::of(alloc, b"send on closed channel")?);
        return Ok(true);
    }
    if channel.values.len() as u64 >= channel.capacity {
        return Ok(false);
    }
    hand_over(alloc, channels, at, frame, offer)?;
    Ok(true)
}

// Whether a receive needs no partner: its channel holds a value, or is closed, which gives the zero value. `false` and an
// `Err` change nothing.
#[tactic(auto, using(crate::proofs::Going::takes_nil, crate::proofs::Going::takes_nowhere, crate::proofs::Going::takes_oldest, crate::proofs::Going::takes_nothing, crate::proofs::Going::takes_zero))]
fn receives(
    alloc: Global,
    channels: &mut Row<Channel>,
    frame: &mut Frame,
    want: Want,
) -> Result<bool, AllocError>
    requires { parts.WantFits want frame.old }
    ensures { spec.GoesBy (part.Wants want) channels.old frame.old result channels.new frame.new }
{
    let Some(number) = want.channel else {
        return Ok(false);
    };
    let at = number as usize;
    let Some(channel) = channels.get(at) else {
        return Ok(false);
    };
    if channel.values.len() > 0 {
        take_from(alloc, channels, at, frame, want)?;
        return Ok(true);
    }
    if !channel.closed {
        return Ok(false);
    }
    let zero = copy_value(&channel.zero)?;
    take(frame, want, zero, false)?;
    Ok(true)
}

// Whether a part that is no default clause needs no partner. `false` and an `Err` change nothing.
fn goes(
    alloc: Global,
    channels: &mut Row<Channel>,
    frame: &mut Frame,
    part: Part,
) -> Result<bool, AllocError>
    requires { parts.PartFits part frame.old }
    ensures { spec.GoesBy part channels.old frame.old result channels.new frame.new }
{
    match part {
        Part::Offers(offer) => sends(alloc, channels, frame, offer),
        Part::Wants(want) => receives(alloc, channels, frame, want),
        Part::Default(_) => Ok(false),
    }
}

#[tactic(auto, using(crate::proofs::Going::frames_go))]
fn frames_go(
    alloc: Global,
    channels: &mut Row<Channel>,
    frames: &mut Stack<Frame>,
    part: Part,
) -> Result<bool, AllocError>
    requires { parts.FramesFit part frames.old }
    ensures { spec.FramesGo part channels.old frames.old result channels.new frames.new }
{
    let mut frame = frames.swap_top(empty_frame(alloc));
    let done = goes(alloc, channels, &mut frame, part);
    let _hole = frames.swap_top(frame);
    done
}

/// Whether the part of a goroutine has a step without a partner. A default clause has none here. `false` and an `Err` change
/// nothing.
pub fn part_goes(
    alloc: Global,
    config: &mut Config,
    index: usize,
    part: Part,
) -> Result<bool, AllocError>
    requires { parts.GoroutineFits part (slice_get config.old.goroutines index) }
    ensures { goroutines.Leads (spec.lone_at config.old index part) config.old result config.new }
{
    let mut goroutine = config.goroutines.replace(index, empty_goroutine(alloc));
    let done = frames_go(alloc, &mut config.channels, &mut goroutine.frames, part);
    let _hole = config.goroutines.replace(index, goroutine);
    done
}
