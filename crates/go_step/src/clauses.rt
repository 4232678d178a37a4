//! The parts of the clauses of a `select`.
ghost use Rattle.std.specs.Prelude.{◌≡◌, slice_get, Some, IfOk};
ghost use Rattle.std.specs.Option.{option_copied};
ghost use Rattle.go_step.specs.Parts as spec;

use crate::heads::default_of_head;
use crate::items::stacked;
use crate::loops::form_at;
use crate::parts::{Entry, Offer, Part, Taking, Want, plain_part};
use crate::selects::operands;
use go_meaning::{
    Comm, CommClause, Config, Goroutine, Item, NodeForm, Program, Stack, Target, Value,
};
use std::alloc::{AllocError, Global};

fn taking_of(targets: &[Target]) -> Taking
    ensures { result ≡ spec.taking_of targets.now }
{
    match targets.len() {
        0 => Taking::Nothing,
        1 => Taking::One,
        _ => Taking::Both,
    }
}

// The targets are assigned, and the list is entered.
fn clause_items(alloc: Global, targets: &[Target], list: u64) -> Result<Stack<Item>, AllocError>
    ensures { IfOk result (λ is. is ≡ spec.clause_items targets.now list) }
{
    let mut items = Stack::new(alloc);
    items.push(Item::Leave)?;
    items.push(Item::Run(list, 0))?;
    if targets.len() > 0 {
        items.push(Item::Assign(stacked(alloc, targets)?))?;
    }
    Ok(items)
}

fn send_clause(
    alloc: Global,
    list: u64,
    pops: usize,
    left: usize,
    channel: Option<&Value>,
) -> Result<Option<Part>, AllocError>
    ensures { IfOk result (λ o. o ≡ spec.send_clause list pops left (option_copied channel.entry)) }
{
    match channel {
        Some(Value::Channel(channel)) => Ok(Some(Part::Offers(Offer {
            channel: *channel,
            below: left.saturating_sub(2),
            pops,
            items: clause_items(alloc, &[], list)?,
        }))),
        _ => Ok(None),
    }
}

fn receive_clause(
    alloc: Global,
    targets: &[Target],
    list: u64,
    pops: usize,
    channel: Option<&Value>,
) -> Result<Option<Part>, AllocError>
    ensures { IfOk result (λ o. o ≡ spec.receive_clause targets.now list pops (option_copied channel.entry)) }
{
    match channel {
        Some(Value::Channel(channel)) => Ok(Some(Part::Wants(Want {
            channel: *channel,
            taking: taking_of(targets),
            pops,
            items: clause_items(alloc, targets, list)?,
        }))),
        _ => Ok(None),
    }
}

fn comm_part(
    alloc: Global,
    clause: &CommClause,
    pops: usize,
    left: usize,
    stack: &Stack<Value>,
) -> Result<Option<Part>, AllocError>
    ensures { IfOk result (λ o. o ≡ spec.comm_part clause.now.comm clause.now.list pops left stack.now) }
{
    let channel = stack.peek(left.saturating_sub(1));
    match &clause.comm {
        Comm::Default => Ok(Some(Part::Default(Entry {
            pops,
            items: clause_items(alloc, &[], clause.list)?,
        }))),
        Comm::Send(_, _) => send_clause(alloc, clause.list, pops, left, channel),
        Comm::Receive { targets, .. } => {
            receive_clause(alloc, targets.as_slice(), clause.list, pops, channel)
        }
    }
}

// The part of the clause with a number, from 0.
#[tactic(auto, using(crate::proofs::SelectWays::fewer_operands))]
fn pick_part(
    alloc: Global,
    clauses: &[CommClause],
    number: usize,
    stack: &Stack<Value>,
) -> Result<Option<Part>, AllocError>
    ensures { IfOk result (λ o. o ≡ spec.pick_part clauses.now number stack.now) }
{
    let Some(pops) = operands(clauses, stack.len()) else {
        return Ok(None);
    };
    if number >= clauses.len() {
        return Ok(None);
    }
    let Some(left) = operands(&clauses[number..], pops) else {
        unreachable!();
    };
    comm_part(alloc, &clauses[number], pops, left, stack)
}

fn form_part(
    alloc: Global,
    form: Option<&NodeForm>,
    number: usize,
    stack: &Stack<Value>,
) -> Result<Option<Part>, AllocError>
    ensures { IfOk result (λ o. o ≡ spec.form_part (option_copied form.entry) number stack.now) }
{
    match form {
        Some(NodeForm::Select(clauses)) => pick_part(alloc, clauses.as_slice(), number, stack),
        _ => Ok(None),
    }
}

/// The part of an item and its clause, from 1, or 0.
pub fn part_of(
    alloc: Global,
    program: &Program,
    item: &Item,
    case: u16,
    stack: &Stack<Value>,
) -> Result<Option<Part>, AllocError>
    ensures { IfOk result (λ o. o ≡ spec.part_of program.now item.now case stack.now) }
{
    if case == 0 {
        return plain_part(alloc, program, item, stack);
    }
    match item {
        Item::Pick(list, index) => {
            let form = form_at(program, *list, *index);
            form_part(alloc, form, case as usize - 1, stack)
        }
        _ => Ok(None),
    }
}

fn part_of_goroutine(
    alloc: Global,
    program: &Program,
    goroutine: &Goroutine,
    case: u16,
) -> Result<Option<Part>, AllocError>
    ensures { IfOk result (λ o. o ≡ spec.goroutine_part program.now case (Some goroutine.now)) }
{
    if goroutine.begin.is_some() {
        return Ok(None);
    }
    let Some(frame) = goroutine.frames.peek(0) else {
        return Ok(None);
    };
    match frame.control.peek(0) {
        Some(item) => part_of(alloc, program, item, case, &frame.stack),
        None => Ok(None),
    }
}

/// The part of the goroutine with an index and its clause, from 1, or 0.
pub fn part_at(
    alloc: Global,
    program: &Program,
    config: &Config,
    index: usize,
    case: u16,
) -> Result<Option<Part>, AllocError>
    ensures { IfOk result (λ o. o ≡ spec.goroutine_part program.now case (slice_get config.now.goroutines index)) }
{
    match config.goroutines.get(index) {
        Some(goroutine) => part_of_goroutine(alloc, program, goroutine, case),
        None => Ok(None),
    }
}

/// The part in which a goroutine can be a partner.
pub fn partner_part(
    alloc: Global,
    program: &Program,
    config: &Config,
    index: usize,
    case: u16,
) -> Result<Option<Part>, AllocError>
    ensures { IfOk result (λ o. o ≡ spec.partner_part program.now case (slice_get config.now.goroutines index)) }
{
    if default_of_head(config, program, index) {
        return Ok(None);
    }
    part_at(alloc, program, config, index, case)
}
