//! Cells and their seats.
ghost use Rattle.std.specs.Prelude.{◌≡◌, true, false, [], ◌∷◌, suc, None};
ghost use Rattle.cov_cells.specs.Rule.{origin_of};

use crate::rule::Rule;
use crate::start::Start;
use crate::view::View;
use atomic_table::Table;
use go_state::Run;
use std::alloc::Global;

/// The turn, a word for each unit, and the run.
#[derive(Drop)]
pub struct Cells {
    pub(crate) alloc: Global,
    pub(crate) table: Table<Option<Run>, View, Start, Rule, Global>,
    pub(crate) start: Start,
    ghost one: { table.shared.table_id.slots ≡ 1 },
    ghost wide: { table.shared.table_id.words ≡ suc (origin_of start).program.units },
    ghost same: { start ≡ table.shared.key },
}

/// A seat at some cells.
#[derive(Drop)]
pub struct Seat {
    pub(crate) inner: atomic_table::Seat<Option<Run>, View>,
    pub(crate) number: u32,
    pub(crate) pending: Option<u32>,
    ghost number_is: { number ≡ inner.me.0.number },
    ghost pending_is: { pending ≡ inner.me.0.pending },
    ghost alive: { inner.me.0.spent ≡ false },
    ghost rests: { inner.me.0.holding ≡ false → inner.me.1 ≡ [] },
    ghost holds: { inner.me.0.holding ≡ true → inner.me.1 ≡ (0, None) ∷ [] },
}
