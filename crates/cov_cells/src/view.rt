//! What a seat knows. No value of these types is ever made: contracts and the rule of the cells speak of them.
use cov_outside::Mode;
use go_meaning::{Event, Program};
use go_state::Limits;
use std::collections::LinkedList;

/// What no step changes: how counters count, and what the cells began with.
pub struct Origin {
    pub mode: Mode,
    /// The starting word of each unit.
    pub words: LinkedList<u32>,
    pub history: LinkedList<Event>,
    pub program: Program,
    pub limits: Limits,
}

/// What a seat knows.
pub struct View {
    /// Whether the seat was joined to another.
    pub spent: bool,
    pub number: u32,
    /// The units of its counter steps, and of those of the seats joined to it, one for each step.
    pub counted: LinkedList<u32>,
    /// The unit at whose counter its goroutine stood when the seat last gave the turn.
    pub due: Option<u32>,
    /// The due unit, once its counter step is done.
    pub pending: Option<u32>,
    /// Whether it has the turn.
    pub holding: bool,
    /// The history that it last took.
    pub taken: LinkedList<Event>,
    /// The history that it last gave, or that a seat joined to it last gave, if that is longer.
    pub given: LinkedList<Event>,
    /// Of the two histories given when a seat was joined to it, the shorter.
    pub met: LinkedList<Event>,
    /// How many goroutines were served in the run that it last took.
    pub served: u32,
    /// How many seats it has made.
    pub made: u32,
    /// How many seats were joined to it, those joined to these included.
    pub gathered: u32,
    /// `None` for a seat that was joined to another.
    pub origin: Option<Origin>,
}
