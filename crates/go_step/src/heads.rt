//! What the item at a goroutine's head does with channels, and whether it goes on by itself.
ghost use Rattle.std.specs.Prelude.{◌≡◌, slice_get, option_map};
ghost use Rattle.go_meaning.specs.Programs as programs;
ghost use Rattle.go_step.specs.Heads as spec;
ghost use Rattle.go_step.specs.Ways as ways;
ghost use Rattle.go_step.specs.Needs as needs;

use crate::loops::form_at;
use crate::needs::can_act;
use crate::selects::{pick_default, pick_way};
use crate::ways::{Way, offer, want};
use go_meaning::{Config, Frame, Goroutine, Item, NodeForm, Program, Stack, Value};

fn pull(program: &Program, list: u64, index: u64, stack: &Stack<Value>) -> Way
    ensures { result ≡ ways.pull (programs.form_at program.now list index) stack.now }
{
    match form_at(program, list, index) {
        Some(NodeForm::RangeChannel { .. }) => want(stack),
        _ => Way::Neither,
    }
}

fn plain_way(program: &Program, item: &Item, stack: &Stack<Value>) -> Way
    ensures { result ≡ ways.plain_way program.now item.now stack.now }
{
    match item {
        Item::Send => offer(stack),
        Item::Recv => want(stack),
        Item::RecvOk => want(stack),
        Item::Pull(list, index) => pull(program, *list, *index, stack),
        _ => Way::Neither,
    }
}

fn item_way(program: &Program, item: &Item, stack: &Stack<Value>, case: u16) -> Way
    ensures { result ≡ spec.item_way program.now item.now stack.now case }
{
    match item {
        Item::Pick(list, index) => pick_way(form_at(program, *list, *index), stack, case),
        item => {
            if case == 0 {
                plain_way(program, item, stack)
            } else {
                Way::Neither
            }
        }
    }
}

#[tactic(auto, using(crate::proofs::HeadWays::select_is_short))]
fn item_count(program: &Program, item: &Item) -> u16
    ensures { result ≡ spec.item_count program.now item.now }
{
    program.known();
    match item {
        Item::Pick(list, index) => match form_at(program, *list, *index) {
            Some(NodeForm::Select(clauses)) => clauses.as_slice().len() as u16 + 1,
            _ => 1,
        },
        _ => 1,
    }
}

fn item_default(program: &Program, item: &Item) -> bool
    ensures { result ≡ spec.item_default program.now item.now }
{
    match item {
        Item::Pick(list, index) => pick_default(form_at(program, *list, *index)),
        _ => false,
    }
}

// The item at the head of a goroutine that has begun, and the frame that it stands in.
#[derive(Clone, Copy)]
struct Head<'a> {
    item: &'a Item,
    frame: &'a Frame,
}

fn head_of(goroutine: &Goroutine) -> Option<Head<'_>>
    ensures { option_map (λ h. (h.item.now, h.frame.now)) result ≡ spec.head (Some goroutine.now) }
{
    if goroutine.begin.is_some() {
        return None;
    }
    let frame = goroutine.frames.peek(0)?;
    let item = frame.control.peek(0)?;
    Some(Head { item, frame })
}

fn head_at(config: &Config, index: usize) -> Option<Head<'_>>
    ensures { option_map (λ h. (h.item.now, h.frame.now)) result ≡ spec.head (slice_get config.now.goroutines index) }
{
    match config.goroutines.get(index) {
        Some(goroutine) => head_of(goroutine),
        None => None,
    }
}

/// What the goroutine with an index does with a channel: in the clause of its `select`, from 1, or 0 of a plain operation.
#[tactic(auto, unfolding(crate::specs::Heads::way_of_head))]
pub fn way_of_head(config: &Config, program: &Program, index: usize, case: u16) -> Way
    ensures { result ≡ spec.way_of_head program.now (slice_get config.now.goroutines index) case }
{
    match head_at(config, index) {
        Some(head) => item_way(program, head.item, &head.frame.stack, case),
        None => Way::Neither,
    }
}

/// From which number on the goroutine with an index has no clauses.
#[tactic(auto, unfolding(crate::specs::Heads::count_of_head))]
pub fn count_of_head(config: &Config, program: &Program, index: usize) -> u16
    ensures { result ≡ spec.count_of_head program.now (slice_get config.now.goroutines index) }
{
    match head_at(config, index) {
        Some(head) => item_count(program, head.item),
        None => 1,
    }
}

#[tactic(auto, unfolding(crate::specs::Heads::default_of_head))]
pub(crate) fn default_of_head(config: &Config, program: &Program, index: usize) -> bool
    ensures { result ≡ spec.default_of_head program.now (slice_get config.now.goroutines index) }
{
    match head_at(config, index) {
        Some(head) => item_default(program, head.item),
        None => false,
    }
}

/// What the goroutine with an index does as a partner.
#[tactic(auto, unfolding(crate::specs::Heads::partner_way))]
pub fn partner_way(config: &Config, program: &Program, index: usize, case: u16) -> Way
    ensures { result ≡ spec.partner_way program.now (slice_get config.now.goroutines index) case }
{
    if default_of_head(config, program, index) {
        Way::Neither
    } else {
        way_of_head(config, program, index, case)
    }
}

fn begins(config: &Config, index: usize) -> bool
    ensures { result ≡ spec.begins (slice_get config.now.goroutines index) }
{
    match config.goroutines.get(index) {
        Some(goroutine) => goroutine.begin.is_some(),
        None => false,
    }
}

/// Whether the goroutine with an index begins, or its head item goes on by itself.
#[tactic(auto, unfolding(crate::specs::Heads::acts))]
pub fn acts(config: &Config, program: &Program, index: usize) -> bool
    ensures { result ≡ spec.acts program.now config.now (slice_get config.now.goroutines index) }
{
    if begins(config, index) {
        return true;
    }
    match head_at(config, index) {
        Some(head) => can_act(config, program, head.item, head.frame),
        None => false,
    }
}
