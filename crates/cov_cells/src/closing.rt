//! The words of a table, at the start and at the end.
ghost use Rattle.std.specs.Prelude.{◌≡◌, ℕ, ◌+◌, ◌<◌, ◌≤◌, ◌%◌, ◌^◌, [], ◌∷◌, length, slice_index, suc, IfOk, vec_len, vec_capacity};
ghost use Rattle.std.specs.Mem.Slots.{slots_items, slots_len, IsFull};
ghost use Rattle.go_meaning.specs.Histories.{IsHistory};
ghost use Rattle.cov_cells.specs.Rule.{Begins, IsLast};
ghost use Rattle.cov_cells.specs.Seats.{view, IsOf};

use crate::cells::{Cells, Seat};
use crate::closed::Closed;
use go_ast::NoMemory;
use go_state::Run;
use std::alloc::Global;

// 0, and then the words.
pub(crate) fn widened(alloc: Global, words: &[u32]) -> Result<Vec<u64>, NoMemory>
    ensures { IfOk result (λ v. v.items ≡ 0 ∷ words.now) }
{
    let mut all = Vec::new(alloc);
    all.push(0u64)?;
    for word in words {
        all.push(u64::from(*word))?;
    }
    Ok(all)
}

// The low halves of all words but the first.
fn narrowed(
    closed: &atomic_table::Closed<Option<Run>, Global>,
    mut words: Vec<u32>,
    count: usize,
) -> Vec<u32>
    requires words { words.items ≡ [] }
    requires room { count ≤ suc (vec_capacity words) }
    requires full { (count ≡ slots_len closed.now.words) × IsFull closed.now.words }
    ensures len { 1 ≤ count → suc (vec_len result) ≡ count }
    ensures words { (u : ℕ) → suc u < count → slice_index result.items u ≡ slice_index (slots_items closed.now.words) (suc u) % 2 ^ 32 }
{
    for i in 1..count {
        words.push_reserved((closed.word(i) % (1 << 32)) as u32);
    }
    words
}

impl Cells {
    /// The words and the run, where seat 0 has gathered all others.
    pub fn close(self, seat: Seat) -> Result<Closed, NoMemory>
        requires cells { IsOf self seat }
        requires last { IsLast (view seat) }
        ensures start { IfOk result (λ c. c.start ≡ self.start) }
        ensures given { IfOk result (λ c. Begins (view seat).given c.run.history) }
        ensures served { IfOk result (λ c. c.run.served ≡ (view seat).made) }
        ensures covered { IfOk result (λ c. IsHistory c.run.program c.run.limits.steps c.run.history) }
        ensures len { IfOk result (λ c. length c.words.items ≡ c.run.program.units) }
    {
        let Cells {
            alloc,
            table,
            start,
        } = self;
        let Seat {
            inner,
            number: _,
            pending: _,
        } = seat;
        let count = table.word_count();
        let words = Vec::with_capacity(alloc, count)?;
        let mut closed = table.close_with(inner);
        let words = narrowed(&closed, words, count);
        let run = closed.take(0).unwrap();
        closed.free();
        run.known();
        Ok(Closed { words, run, start })
    }
}
