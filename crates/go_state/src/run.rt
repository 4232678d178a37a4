//! Runs.
ghost use Rattle.std.specs.Prelude.{◌≡◌, ◌≢◌, ◌+◌, ◌*◌, ◌<◌, ◌≤◌, [], ◌∷◌, ◌++◌, length, Some, None, Ok, Err, IfOk, OnOk, OnErr, IsOk, true, false, vec_len, vec_capacity};
ghost use Rattle.std.specs.Option.{option_copied};
ghost use Rattle.go_meaning.specs.Histories.{IsCount, IsHistory, EndAfter, replay, output_of};
ghost use Rattle.go_step.specs.declared.stepping.StepRefusal.TheVariants.{NotReady, NoMemory};
ghost use Rattle.go_state.specs.Runs.{IsFresh, goroutines_after};

use crate::ends::{active, can_come, end_of, steps_of};
use crate::limits::Limits;
use go_ast::NoMemory;
use go_meaning::laws::goroutines;
use go_meaning::{Config, End, Event, Program};
use go_step::{StepRefusal, start, step};
use std::alloc::Global;
use std::marker::Model;
use std::snapshot::Snapshot;

/// A program's run so far: the events that have happened, and the configuration to which they led.
///
/// It keeps no program: each call that takes a step is handed the one with which the run was started.
#[derive(Drop)]
pub struct Run {
    alloc: Global,
    program: Snapshot<Program>,
    limits: Limits,
    config: Config,
    events: Vec<Event>,
    // How many of the events are steps of the program.
    steps: u32,
    // The end of a history whose configuration has none of its own.
    end: Option<End>,
    // A goroutine that had an event when one was last looked for.
    active: u16,
    served: u32,
    refused: bool,
}

impl Model for Run {
    ghost use Rattle.std.specs.Prelude.{◌-◌, vec_len, vec_capacity};
    ghost use Rattle.std.specs.Coded.{codes};
    ghost use Rattle.go_meaning.specs.contracts.expr.Expr as e;
    ghost use Rattle.go_state.specs.Runs.{RunState, IsRun};

    ghost Value = { RunState };

    ghost coded = { Prim.hlevel (codes, e.the_row.coded) };

    ghost view = { λ r. record { program = r.program.value; limits = r.limits; history = r.events.items; served = r.served; spare = vec_capacity r.events - vec_len r.events; refused = r.refused } };

    ghost invariant = { λ r. IsRun r.program.value r.limits.steps r.events.items r.config r.steps r.end r.served };
}

// Makes room for one event more. Where there is room it takes no memory.
fn make_room(events: &mut Vec<Event>) -> Result<(), NoMemory>
    ensures items { events.new.items ≡ events.old.items }
    ensures len { vec_len events.new ≡ vec_len events.old }
    ensures ok { OnOk result (vec_len events.new < vec_capacity events.new) }
    ensures same { vec_len events.old < vec_capacity events.old → IsOk result × (vec_capacity events.new ≡ vec_capacity events.old) }
    ensures kept { vec_capacity events.old ≤ vec_capacity events.new }
{
    if events.len() == events.capacity() {
        events.reserve(1)?;
    }
    Ok(())
}

impl Run {
    /// A run that has just been started: goroutine 1 is about to begin `main`.
    pub fn start(alloc: Global, program: &Program, limits: Limits) -> Result<Run, NoMemory>
        ensures fresh { IfOk result (λ run. IsFresh program.now limits run) }
        ensures events { IfOk result (λ run. run.history ≡ []) }
    {
        let config = start(alloc, program)?;
        let active = active(&config, program, 1);
        let end = end_of(&config, program, active, 0, limits);
        Ok(Run {
            alloc,
            program: Snapshot::of(program),
            limits,
            config,
            events: Vec::new(alloc),
            steps: 0,
            end,
            active: 1,
            served: 0,
            refused: false,
        })
    }

    /// The run's events are a history, and it has no more goroutines served than there are.
    pub fn known(&self)
        ensures history { IsHistory self.now.program self.now.limits.steps self.now.history }
        ensures served { self.now.served ≤ goroutines_after self.now.program self.now.history }
        ensures few { goroutines_after self.now.program self.now.history ≤ 256 }
        ensures some { 0 < goroutines_after self.now.program self.now.history }
    {
        let _ = &self.events;
    }

    /// The configuration that the events reach.
    pub fn config(&self) -> &Config
        ensures { replay self.now.program self.now.history ≡ Some result.now }
    {
        &self.config
    }

    /// The run's end. `Deadlock` is told before `StepLimit`, and any other end before both.
    pub fn end(&self) -> Option<&End>
        ensures { EndAfter self.now.program self.now.limits.steps self.now.history (option_copied result) }
    {
        match &self.config.end {
            Some(end) => Some(end),
            None => self.end.as_ref(),
        }
    }

    /// What has happened, in order.
    pub fn events(&self) -> &[Event]
        ensures { result.now ≡ self.now.history }
    {
        self.events.as_slice()
    }

    /// What the program has printed.
    pub fn output(&self) -> &[u8]
        ensures { output_of self.now.program self.now.history ≡ Some result.now }
    {
        self.config.output.bytes()
    }

    /// How many goroutines there are, those that are over included.
    pub fn goroutines(&self) -> u32
        ensures { result ≡ goroutines_after self.now.program self.now.history }
    {
        self.config.goroutines.as_slice().len() as u32
    }

    /// How many goroutines are served.
    pub fn served(&self) -> u32
        ensures { result ≡ self.now.served }
    {
        self.served
    }

    /// One goroutine more is served.
    pub fn serve(&mut self)
        requires { self.old.served < goroutines_after self.old.program self.old.history }
        ensures { self.new ≡ record self.old { served = self.old.served + 1 } }
    {
        self.served += 1;
    }

    /// A call of this run has wanted memory.
    pub fn refuse(&mut self)
        ensures { self.new ≡ record self.old { refused = true } }
    {
        self.refused = true;
    }

    pub fn refused(&self) -> bool
        ensures { result ≡ self.now.refused }
    {
        self.refused
    }

    /// Makes room for the whole history: twice as many events as the limit of steps, and 256.
    pub fn reserve(&mut self) -> Result<(), NoMemory>
        ensures same { self.new ≡ record self.old { spare = self.new.spare } }
        ensures kept { self.old.spare ≤ self.new.spare }
        ensures ok { OnOk result (2 * self.old.limits.steps + 256 ≤ length self.new.history + self.new.spare) }
    {
        let whole = 2 * self.limits.steps as usize + 256;
        self.events.reserve(whole.saturating_sub(self.events.len()))
    }

    /// Takes a step, and adds its event. `NotReady` comes exactly where the events with this one are no history: where
    /// there is no such step, or where it is a step of the program and the run has an end. An `Err` changes nothing.
    /// A counter step takes no memory where there is room.
    pub fn apply(&mut self, program: &Program, event: Event) -> Result<(), StepRefusal>
        requires { program.now ≡ self.old.program }
        ensures ok { OnOk result (self.new ≡ record self.old { history = self.old.history ++ event ∷ []; spare = self.new.spare }) }
        ensures room { OnOk result (0 < self.old.spare → self.new.spare + 1 ≡ self.old.spare) }
        ensures err { OnErr result (self.new ≡ record self.old { spare = self.new.spare }) }
        ensures kept { OnErr result (self.old.spare ≤ self.new.spare) }
        ensures ready { OnOk result (IsHistory self.old.program self.old.limits.steps (self.old.history ++ event ∷ [])) }
        ensures not_ready { result ≡ Err NotReady → ¬ IsHistory self.old.program self.old.limits.steps (self.old.history ++ event ∷ []) }
        ensures count { IsCount event → 0 < self.old.spare → result ≢ Err NoMemory }
    {
        let taken = steps_of(event);
        if !can_come(taken, &self.config.end, &self.end) {
            return Err(StepRefusal::NotReady);
        }
        goroutines();
        if make_room(&mut self.events).is_err() {
            return Err(StepRefusal::NoMemory);
        }
        step(self.alloc, &mut self.config, program, event)?;
        self.events.push_reserved(event);
        self.steps += taken;
        let active = active(&self.config, program, self.active);
        self.end = end_of(&self.config, program, active, self.steps, self.limits);
        self.active = active.unwrap_or(self.active);
        Ok(())
    }
}
