//! What a goroutine does with the run in its turn.
ghost use Rattle.std.specs.Prelude.{◌≡◌, ℕ, ◌+◌, ◌*◌, ◌<◌, ◌≤◌, [], ◌∷◌, ◌++◌, length, slice_get, true, false, Some, None};
ghost use Rattle.go_meaning.specs.Entries.{count_at};
ghost use Rattle.go_meaning.specs.Steps as steps;
ghost use Rattle.go_meaning.specs.declared.event.Event.TheVariants as event;
ghost use Rattle.go_state.specs.Runs.{goroutines_after};
ghost use Rattle.cov_cells.specs.Rule.{due_after};
ghost use Rattle.go_threads.specs.Runnable.{IsRunnable};
ghost use Rattle.go_threads.specs.Turns.{Finds, GoesOn, Grows, Halts};

use crate::turning::Turned;
use cov_erase::laws::histories_are_short;
use go_meaning::laws::{shapes_run_alike, standing};
use go_meaning::{Config, Event, Program, Ready};
use go_state::laws::histories_grow;
use go_state::{Run, StepRefusal};
use go_step::beginning::due;
use go_step::{first_event, ready};

/// How many steps of the program a goroutine takes in a turn at most.
const TURN: u32 = 1000;

// The unit at whose counter the goroutine of an index stands.
fn due_of(config: &Config, program: &Program, index: usize) -> Option<u32>
    ensures { result ≡ steps.due program.now (slice_get config.now.goroutines index) }
{
    match config.goroutines.get(index) {
        Some(goroutine) => due(program, goroutine),
        None => None,
    }
}

/// The unit at whose counter a goroutine stands.
pub(crate) fn due_in(run: &Run, program: &Program, goroutine: u16) -> Option<u32>
    requires program { program.now ≡ run.now.program }
    requires number { 0 < goroutine }
    ensures { result ≡ due_after run.now.program run.now.history goroutine }
{
    due_of(run.config(), program, goroutine as usize - 1)
}

/// What a turn finds to do.
pub(crate) fn found(run: &Run, program: &Program, goroutine: u16) -> Turned
    requires program { program.now ≡ run.now.program }
    requires number { 0 < goroutine }
    requires there { goroutine ≤ goroutines_after run.now.program run.now.history }
    ensures { Finds run.now.program run.now.limits.steps run.now.history goroutine result }
{
    run.known();
    if due_in(run, program, goroutine).is_some() {
        return Turned::Stepped;
    }
    if run.end().is_some() {
        return Turned::Ended;
    }
    match ready(run.config(), program, goroutine) {
        Ready::Step => Turned::Stepped,
        Ready::Not => Turned::NotReady,
        Ready::Over => Turned::Ended,
        Ready::Count(_) => unreachable!(),
    }
}

/// Records the counter step that is pending, if there is one.
pub(crate) fn record(run: &mut Run, program: &Program, goroutine: u16, pending: Option<u32>)
    requires program { program.now ≡ run.old.program }
    requires runnable { IsRunnable program.now }
    requires number { 0 < goroutine }
    requires room { 2 * run.old.limits.steps + 256 ≤ length run.old.history + run.old.spare }
    requires due { (u : ℕ) → pending ≡ Some u → due_after run.old.program run.old.history goroutine ≡ Some u }
    ensures { Grows run.old (count_at pending goroutine) run.new }
{
    let Some(unit) = pending else {
        return;
    };
    run.known();
    program.known();
    histories_are_short();
    histories_grow();
    shapes_run_alike();
    standing();
    match run.apply(program, Event::Count { goroutine, unit }) {
        Ok(()) => {}
        Err(StepRefusal::NotReady) => unreachable!(),
        Err(StepRefusal::NoMemory) => unreachable!(),
    }
}

// Takes a step of a goroutine. `false` where it takes none; where memory is wanted the run is refused.
fn goes(run: &mut Run, program: &Program, goroutine: u16) -> bool
    requires program { program.now ≡ run.old.program }
    requires number { 0 < goroutine }
    requires there { goroutine ≤ goroutines_after run.old.program run.old.history }
    ensures yes { result ≡ true → (k : ℕ) × (p : ℕ) × (q : ℕ) × Grows run.old (event.Step goroutine k p q ∷ []) run.new }
    ensures no { result ≡ false → Grows run.old [] run.new }
    ensures there { goroutine ≤ goroutines_after run.new.program run.new.history }
    ensures halts { result ≡ false → run.new.refused ≡ false → Halts run.new.program run.new.limits.steps run.new.history goroutine }
{
    if run.refused() || run.end().is_some() {
        return false;
    }
    run.known();
    histories_grow();
    go_meaning::laws::goroutines();
    match first_event(run.config(), program, goroutine) {
        Some(Event::Count { .. }) => false,
        None => false,
        Some(event) => match run.apply(program, event) {
            Ok(()) => true,
            Err(StepRefusal::NotReady) => unreachable!(),
            Err(StepRefusal::NoMemory) => {
                run.refuse();
                false
            }
        },
    }
}

/// Takes at most 1,000 steps of a goroutine: until it stands at a counter, isn't ready or is over, or the run has an end or
/// is refused.
pub(crate) fn advance(run: &mut Run, program: &Program, goroutine: u16)
    requires program { program.now ≡ run.old.program }
    requires number { 0 < goroutine }
    requires there { goroutine ≤ goroutines_after run.old.program run.old.history }
    ensures { GoesOn goroutine 1000 run.old run.new }
{
    for _ in 0..TURN {
        if !goes(run, program, goroutine) {
            return;
        }
    }
}
