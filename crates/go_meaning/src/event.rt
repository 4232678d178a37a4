//! Events, ends, and whether a goroutine is ready.
use go_ast::Text;

/// What happens in a run. Goroutines are numbered from 1 in the order in which they were started.
#[derive(Clone, Copy, Debug, PartialEq, Eq)]
pub enum Event {
    /// A step of the program.
    Step {
        goroutine: u16,
        /// The clause of a `select`, from 1, or 0.
        case: u16,
        /// The other goroutine of an unbuffered exchange, or 0.
        partner: u16,
        /// The clause of the other goroutine's `select`, from 1, or 0.
        partner_case: u16,
    },
    /// A counter step.
    Count {
        goroutine: u16,
        unit: u32,
    },
}

const _: () = prove!(size_of::<Event>() <= 16);

/// How a run ends.
#[derive(Debug, Drop, PartialEq, Eq)]
pub enum End {
    Returned,
    Exit(i64),
    /// The message.
    Panic(Text),
    Fatal(Text),
    Deadlock,
    StepLimit,
    StringLimit,
    OutputLimit,
    GoroutineLimit,
    StackLimit,
}

/// What a goroutine can do.
#[derive(Clone, Copy, Debug, PartialEq, Eq)]
pub enum Ready {
    /// It waits.
    Not,
    Over,
    /// It stands at the counter of a unit.
    Count(u32),
    Step,
}
