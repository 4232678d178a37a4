//! Laws of steps and histories, over every program. The calls do nothing.

ghost use Rattle.go_meaning.specs.Fitting.{ActsFit};
ghost use Rattle.go_meaning.specs.Laws.{ShapesRunAlike, StandsUntilCounted, StaysOver, UnitsAreBelow, GoroutinesStay, GoroutinesStayFew, OneSerialHistory, CountedIsProgram, ErasedIsProgram};

/// Programs that are equal without spans and offsets have the same steps, histories and ends.
pub fn shapes_run_alike()
    ensures { ShapesRunAlike }
{}

/// A goroutine that stands at a counter stands there until its own counter step, and one that is over stays over. A unit
/// at whose counter a goroutine of a program stands is one of the program's units.
pub fn standing()
    ensures counters { StandsUntilCounted }
    ensures over { StaysOver }
    ensures units { UnitsAreBelow }
{}

/// A step takes no goroutine away, and there are never more than 256.
pub fn goroutines()
    ensures stay { GoroutinesStay }
    ensures few { GoroutinesStayFew }
{}

/// A program has at most one serial history under a limit of steps.
pub fn one_serial_history()
    ensures { OneSerialHistory }
{}

/// The counted program of a program without units is a program, and a program without its counters is one.
pub fn covering()
    ensures counted { CountedIsProgram }
    ensures erased { ErasedIsProgram }
{}

/// What an item does takes values that are there, and changes a mutex, a wait group or a channel that is there. A text that
/// it writes fits the limit of the output.
pub fn acts_fit()
    ensures { ActsFit }
{}
