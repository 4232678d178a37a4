//! What is left of cells that were closed.
ghost use Rattle.std.specs.Prelude.{◌≡◌, ℕ, ◌<◌, ◌++◌, slice_index};
ghost use Rattle.std.specs.Coded.{codes};
ghost use Rattle.go_meaning.specs.Entries.{unit_counts};
ghost use Rattle.go_meaning.specs.contracts.expr.Expr as e;
ghost use Rattle.cov_cells.specs.Rule.{origin_of, gained, word_after};

use crate::start::Start;
use go_state::Run;

/// The words and the run of cells that were closed.
///
/// Each unit's word is its starting word and the counter steps on it that the run has gained: their sum modulo 2^32, or in
/// mode set 1 where there was such a step.
#[derive(Drop)]
pub struct Closed {
    pub(crate) words: Vec<u32>,
    pub(crate) run: Run,
    pub(crate) start: Start,
    pub ghost program: { run.program ≡ (origin_of start).program } by { Prim.hlevel (codes, e.the_row.coded) },
    pub ghost limits: { run.limits ≡ (origin_of start).limits },
    pub ghost begins: { run.history ≡ (origin_of start).history ++ gained (origin_of start) run },
    pub ghost counted: { (u : ℕ) → u < (origin_of start).program.units → slice_index words.items u ≡ word_after (origin_of start).mode (slice_index (origin_of start).words u) (unit_counts (gained (origin_of start) run) u) },
}

impl Closed {
    /// The word of each unit.
    pub fn words(&self) -> &[u32]
        ensures { result.now ≡ self.now.words.items }
    {
        self.words.as_slice()
    }

    pub fn run(&self) -> &Run
        ensures { result.now ≡ self.now.run }
    {
        &self.run
    }
}
