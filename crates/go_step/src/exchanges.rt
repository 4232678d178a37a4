//! The exchange of two goroutines over a channel without a buffer.
ghost use Rattle.std.specs.Prelude.{◌≡◌, ◌≢◌, slice_get, slice_set, OnOk, OnErr};
ghost use Rattle.go_step.specs.declared.parts.Part.TheVariants as part;
ghost use Rattle.go_step.specs.Goroutines as goroutines;
ghost use Rattle.go_step.specs.Parts as parts;
ghost use Rattle.go_step.specs.Handing as spec;

use crate::clauses::{part_at, partner_part};
use crate::frames::empty_frame;
use crate::goroutines::empty_goroutine;
use crate::handing::hand;
use crate::parts::{Offer, Part, Want};
use crate::ways::{Way, meets};
use go_meaning::{Config, Frame, Goroutine, Program, Row, Stack};
use std::alloc::{AllocError, Global};

// The frame that runs of one goroutine gives its value to that of another. An `Err` changes nothing.
#[tactic(auto, using(crate::proofs::Exchanging::gone_top, crate::proofs::Exchanging::took_top, crate::proofs::Exchanging::top_back))]
fn hand_frames(
    alloc: Global,
    senders: &mut Stack<Frame>,
    offer: Offer,
    receivers: &mut Stack<Frame>,
    want: Want,
) -> Result<(), AllocError>
    requires offer { parts.FramesFit (part.Offers offer) senders.old }
    requires want { parts.FramesFit (part.Wants want) receivers.old }
    ensures sender { OnOk result (senders.new ≡ spec.gone_in offer.pops offer.items senders.old) }
    ensures receiver { OnOk result (receivers.new ≡ spec.took_in want (spec.sent_in offer.below senders.old) receivers.old) }
    ensures same { OnErr result (senders.new ≡ senders.old) }
    ensures err { OnErr result (receivers.new ≡ receivers.old) }
{
    let mut sender = senders.swap_top(empty_frame(alloc));
    let mut receiver = receivers.swap_top(empty_frame(alloc));
    match hand(&mut sender, offer, &mut receiver, want) {
        Ok(()) => {
            let _hole = senders.swap_top(sender);
            let _hole = receivers.swap_top(receiver);
            Ok(())
        }
        Err(e) => {
            let _hole = senders.swap_top(sender);
            let _hole = receivers.swap_top(receiver);
            Err(e)
        }
    }
}

// A goroutine gives its value to another. An `Err` changes nothing.
fn hand_goroutines(
    alloc: Global,
    goroutines: &mut Row<Goroutine>,
    sender: usize,
    offer: Offer,
    receiver: usize,
    want: Want,
) -> Result<(), AllocError>
    requires others { sender ≢ receiver }
    requires offer { parts.GoroutineFits (part.Offers offer) (slice_get goroutines.old sender) }
    requires want { parts.GoroutineFits (part.Wants want) (slice_get goroutines.old receiver) }
    ensures ok { OnOk result (goroutines.new ≡ slice_set (slice_set goroutines.old sender (spec.gone_by offer.pops offer.items (slice_get goroutines.old sender))) receiver (spec.took_by want (spec.sent_by offer.below (slice_get goroutines.old sender)) (slice_get goroutines.old receiver))) }
    ensures err { OnErr result (goroutines.new ≡ goroutines.old) }
{
    let mut from = goroutines.replace(sender, empty_goroutine(alloc));
    let mut to = goroutines.replace(receiver, empty_goroutine(alloc));
    match hand_frames(alloc, &mut from.frames, offer, &mut to.frames, want) {
        Ok(()) => {
            let _hole = goroutines.replace(receiver, to);
            let _hole = goroutines.replace(sender, from);
            Ok(())
        }
        Err(e) => {
            let _hole = goroutines.replace(receiver, to);
            let _hole = goroutines.replace(sender, from);
            Err(e)
        }
    }
}

// Whether an offer goes on in one step with another part. `false` and an `Err` change nothing.
#[tactic(auto, using(crate::proofs::Exchanging::unmatched, crate::proofs::Exchanging::unmet_offer, crate::proofs::Exchanging::met_offer))]
fn offer_to(
    alloc: Global,
    config: &mut Config,
    index: usize,
    offer: Offer,
    partner: usize,
    other: Part,
) -> Result<bool, AllocError>
    requires others { index ≢ partner }
    requires offer { parts.GoroutineFits (part.Offers offer) (slice_get config.old.goroutines index) }
    requires other { parts.GoroutineFits other (slice_get config.old.goroutines partner) }
    ensures { goroutines.Leads (spec.exchange_by config.old index partner (part.Offers offer) other) config.old result config.new }
{
    match other {
        Part::Wants(want) => {
            if !meets(config, Way::Offers(offer.channel), Way::Wants(want.channel)) {
                return Ok(false);
            }
            hand_goroutines(alloc, &mut config.goroutines, index, offer, partner, want)?;
            Ok(true)
        }
        Part::Offers(_) => Ok(false),
        Part::Default(_) => Ok(false),
    }
}

// Whether a want goes on in one step with another part. `false` and an `Err` change nothing.
#[tactic(auto, using(crate::proofs::Exchanging::unmatched, crate::proofs::Exchanging::unmet_want, crate::proofs::Exchanging::met_want))]
fn want_from(
    alloc: Global,
    config: &mut Config,
    index: usize,
    want: Want,
    partner: usize,
    other: Part,
) -> Result<bool, AllocError>
    requires others { index ≢ partner }
    requires want { parts.GoroutineFits (part.Wants want) (slice_get config.old.goroutines index) }
    requires other { parts.GoroutineFits other (slice_get config.old.goroutines partner) }
    ensures { goroutines.Leads (spec.exchange_by config.old index partner (part.Wants want) other) config.old result config.new }
{
    match other {
        Part::Offers(offer) => {
            if !meets(config, Way::Offers(offer.channel), Way::Wants(want.channel)) {
                return Ok(false);
            }
            hand_goroutines(alloc, &mut config.goroutines, partner, offer, index, want)?;
            Ok(true)
        }
        Part::Wants(_) => Ok(false),
        Part::Default(_) => Ok(false),
    }
}

// Whether two parts go on in one step. `false` and an `Err` change nothing.
#[tactic(auto, using(crate::proofs::Exchanging::unmatched))]
fn exchange_parts(
    alloc: Global,
    config: &mut Config,
    index: usize,
    part: Part,
    partner: usize,
    other: Part,
) -> Result<bool, AllocError>
    requires others { index ≢ partner }
    requires part { parts.GoroutineFits part (slice_get config.old.goroutines index) }
    requires other { parts.GoroutineFits other (slice_get config.old.goroutines partner) }
    ensures { goroutines.Leads (spec.exchange_by config.old index partner part other) config.old result config.new }
{
    match part {
        Part::Offers(offer) => offer_to(alloc, config, index, offer, partner, other),
        Part::Wants(want) => want_from(alloc, config, index, want, partner, other),
        Part::Default(_) => Ok(false),
    }
}

/// Whether two goroutines go on in one step, by their clauses, from 1, or 0. `false` and an `Err` change nothing.
#[tactic(auto, using(crate::proofs::Exchanging::both_sided, crate::proofs::Exchanging::both_none, crate::proofs::Exchanging::both_no_partner, crate::proofs::Sided::part_fits, crate::proofs::Sided::partner_fits))]
pub fn exchanges(
    alloc: Global,
    program: &Program,
    config: &mut Config,
    index: usize,
    case: u16,
    partner: usize,
    partner_case: u16,
) -> Result<bool, AllocError>
    requires { index ≢ partner }
    ensures { goroutines.Leads (spec.both_at program.now config.old index case partner partner_case) config.old result config.new }
{
    let Some(part) = part_at(alloc, program, config, index, case)? else {
        return Ok(false);
    };
    let Some(other) = partner_part(alloc, program, config, partner, partner_case)? else {
        return Ok(false);
    };
    exchange_parts(alloc, config, index, part, partner, other)
}
