//! What each atomic step tells the seat that does it.
ghost use Rattle.cov_cells.specs.Steps.{taking, giving, counting, looking, after_split, new_view, after_join, spent_view};

use crate::view::View;
use atomic_table::{Join, Play, Split};
use go_state::Run;

/// Takes the turn, if nobody has it.
pub(crate) struct Take;

impl Play<Option<Run>, View> for Take {
    ghost then = { taking };
}

/// Gives the turn.
pub(crate) struct Give;

impl Play<Option<Run>, View> for Give {
    ghost then = { giving };
}

/// Counts the due unit.
pub(crate) struct Counting;

impl Play<Option<Run>, View> for Counting {
    ghost then = { counting };
}

/// Makes a seat of a seat.
pub(crate) struct Splitting;

impl Split<View> for Splitting {
    ghost left = { after_split };

    ghost right = { new_view };
}

/// Joins a seat to another.
pub(crate) struct Joining;

impl Join<View> for Joining {
    ghost both = { after_join };

    ghost spent = { spent_view };
}

/// Changes nothing, and tells that what the seat met is a beginning of what it gave.
pub(crate) struct Looking;

impl Play<Option<Run>, View> for Looking {
    ghost then = { looking };
}
