//! The rule that the cells keep.
ghost use Rattle.cov_cells.specs.Rule.{Kept, origin_of, first_view};

use crate::start::Start;
use crate::view::View;
use atomic_table::TableRule;
use go_state::Run;

pub struct Rule;

impl TableRule<Option<Run>, View, Start> for Rule {
    ghost holds = { λ k. Kept (origin_of k) };

    ghost first = { λ k. first_view (origin_of k) };
}
