//! A goroutine's first step, and its counter steps.
ghost use Rattle.std.specs.Prelude.{◌≡◌, Some, OnOk, OnErr, if◌then◌else◌};
ghost use Rattle.go_meaning.specs.Steps as steps;
ghost use Rattle.go_step.specs.Beginning as spec;

use crate::calls::{blank, fill};
use crate::frames::empty_frame;
use crate::goroutines::empty_goroutine;
use crate::loops::form_at;
use go_meaning::{Config, Goroutine, Item, NodeForm, Program, Stack};
use std::alloc::{AllocError, Global};

/// Makes the frame of the function with which a goroutine begins. An `Err` changes nothing.
#[tactic(auto, using(crate::proofs::Arguments::entered))]
pub fn begin(alloc: Global, program: &Program, goroutine: &mut Goroutine) -> Result<(), AllocError>
    requires { spec.IsBeginning goroutine.old.begin }
    ensures ok { OnOk result (spec.begins program.now goroutine.old.begin ≡ Some goroutine.new) }
    ensures err { OnErr result (goroutine.new ≡ goroutine.old) }
{
    let Some(call) = &goroutine.begin else {
        unreachable!();
    };
    let mut frame = blank(alloc, program, call.function, call.args.len(), false)?;
    let mut frames = Stack::new(alloc);
    frames.push(empty_frame(alloc))?;
    match goroutine.begin.take() {
        Some(call) => fill(&mut frame.slots, call.args),
        None => unreachable!(),
    }
    let _hole = frames.swap_top(frame);
    goroutine.frames = frames;
    Ok(())
}

/// The unit at whose counter a goroutine stands.
pub fn due(program: &Program, goroutine: &Goroutine) -> Option<u32>
    ensures { result ≡ steps.due program.now (Some goroutine.now) }
{
    if goroutine.begin.is_some() {
        return None;
    }
    let frame = goroutine.frames.peek(0)?;
    match frame.control.peek(0) {
        Some(Item::Run(list, index)) => match form_at(program, *list, *index) {
            Some(NodeForm::Count(unit)) => Some(*unit),
            _ => None,
        },
        _ => None,
    }
}

// Whether a control stands at the counter of a unit; then it goes past.
fn pass_control(program: &Program, control: &mut Stack<Item>, unit: u32) -> bool
    ensures due { result ≡ spec.is_due unit (steps.due_item program.now control.old) }
    ensures past { control.new ≡ (if result then steps.past_item control.old else control.old) }
{
    let Some(Item::Run(list, index)) = control.peek(0) else {
        return false;
    };
    let (list, index) = (*list, *index);
    match form_at(program, list, index) {
        Some(NodeForm::Count(due)) if *due == unit => {
            let _counter = control.swap_top(Item::Run(list, index + 1));
            true
        }
        _ => false,
    }
}

/// Whether a goroutine stands at the counter of a unit; then it goes past.
#[tactic(auto, using(crate::proofs::Beginnings::passes_top))]
pub fn passes(alloc: Global, program: &Program, goroutine: &mut Goroutine, unit: u32) -> bool
    ensures { spec.Passes program.now goroutine.old unit result goroutine.new }
{
    if goroutine.begin.is_some() || goroutine.frames.len() == 0 {
        return false;
    }
    let mut frame = goroutine.frames.swap_top(empty_frame(alloc));
    let passed = pass_control(program, &mut frame.control, unit);
    let _hole = goroutine.frames.swap_top(frame);
    passed
}

/// Whether there is a counter step of the goroutine with this index. It takes no memory, and `false` changes nothing.
#[tactic(auto, using(crate::proofs::Beginnings::counts_at))]
pub fn counts(
    alloc: Global,
    program: &Program,
    config: &mut Config,
    index: usize,
    unit: u32,
) -> bool
    ensures { spec.Counts program.now config.old index unit result config.new }
{
    if index >= config.goroutines.len() {
        return false;
    }
    let mut goroutine = config.goroutines.replace(index, empty_goroutine(alloc));
    let passed = passes(alloc, program, &mut goroutine, unit);
    let _hole = config.goroutines.replace(index, goroutine);
    passed
}
