//! What a run did.
ghost use Rattle.std.specs.Prelude.{◌≡◌, [], None};

use cov_outside::{Sequence, Text};
use std::alloc::Global;

/// A step of a run. Goroutines are numbered from 1 in order of creation, the cases of a `select` from 1; 0 is none.
#[derive(Clone, Copy, Debug, PartialEq, Eq)]
pub enum Event {
    /// A step of the program. The partner is the other side of an unbuffered exchange.
    Step {
        goroutine: u16,
        case: u16,
        partner: u16,
        partner_case: u16,
    },
    /// A counter step, with the unit's number in the program.
    Count {
        goroutine: u16,
        unit: u32,
    },
}

/// How a run ended.
#[derive(Debug, Drop)]
pub enum End {
    Returned,
    Exit(i64),
    Panic(Text),
    Fatal(Text),
    Deadlock,
    StepLimit,
    StringLimit,
    OutputLimit,
    GoroutineLimit,
    StackLimit,
}

/// The history of a run, the counts of its units and its end. It stays empty where no step was taken.
#[derive(Debug, Drop)]
pub struct Journal {
    pub events: Sequence<Event>,
    pub words: Sequence<u32>,
    pub end: Option<End>,
}

impl Journal {
    /// The journal of no run.
    pub fn new(alloc: Global) -> Journal
        ensures { result ≡ record { events = []; words = []; end = None } }
    {
        Journal {
            events: Sequence::new(alloc),
            words: Sequence::new(alloc),
            end: None,
        }
    }
}
