//! Laws over every program and every list of events.

ghost use Rattle.cov_erase.specs.Laws.{ErasesToProgram, ErasureHolds, WeavingHolds, SerialHolds, HistoriesAreShort, SerialRests, EntriesAddUp};

use go_meaning::laws::goroutines;

/// Counters change nothing. The call does nothing.
///
/// The covered program without its counters is the program. Erasing the counter steps of a covered history leaves a
/// history of the program, with the same output and the same end, and its entries are the counter steps. For each history
/// of the program there is a covered history at a rest that erases to it. Erasing the serial history of the covered program
/// gives the serial history of the program.
pub fn erased()
    ensures program { ErasesToProgram }
    ensures erasing { ErasureHolds }
    ensures weaving { WeavingHolds }
    ensures serial { SerialHolds }
{}

/// A covered history under a limit of steps has at most twice as many events, and one more for each of the 256 goroutines
/// that there can be; where a goroutine stands at a counter there is room for one event more. The call does nothing.
pub fn histories_are_short()
    ensures { HistoriesAreShort }
{
    goroutines();
}

/// The serial history of a covered program is one of its histories, and ends at a rest. The call does nothing.
pub fn serial_history_rests()
    ensures { SerialRests }
{}

/// The entries of a unit are those by each goroutine. The call does nothing.
pub fn entries_add_up()
    ensures { EntriesAddUp }
{
    goroutines();
}

#[cfg(test)]
mod tests {
    use super::{entries_add_up, erased, histories_are_short, serial_history_rests};

    #[test]
    fn laws_do_nothing() {
        erased();
        entries_add_up();
        histories_are_short();
        serial_history_rests();
    }
}
