//! What seats do: take and give the turn, count, split and join.
ghost use Rattle.std.specs.Prelude.{◌≡◌, ◌≢◌, ◌<◌, ◌≤◌, ◌+◌, ◌*◌, true, false, length, suc, None, Some, IfOk};
ghost use Rattle.cov_outside.specs.declared.mode.Mode.TheVariants as mode;
ghost use Rattle.go_state.specs.Runs.{goroutines_after};
ghost use Rattle.cov_cells.specs.Rule.{Begins, due_after, first_view, started};
ghost use Rattle.cov_cells.specs.Steps.{IsHanded, MayGive, after_take, after_give, after_count, after_split, new_view, after_join};
ghost use Rattle.cov_cells.specs.Seats.{view, origin, IsOf, IsSameSeat};

use crate::cells::{Cells, Seat};
use crate::closing::widened;
use crate::plays::{Counting, Give, Joining, Looking, Splitting, Take};
use crate::start::Start;
use atomic_table::{Refused, Table};
use cov_outside::Mode;
use go_ast::NoMemory;
use go_meaning::laws::standing;
use go_state::Run;
use std::alloc::{AllocError, Global};
use std::snapshot::Snapshot;
use std::sync::Wait;
use std::thread::yield_now;

impl Seat {
    /// The number of the seat's goroutine, or 0.
    pub fn number(&self) -> u32
        ensures { result ≡ (view self.now).number }
    {
        self.number
    }

    /// The unit that was counted and isn't recorded yet.
    pub fn pending(&self) -> Option<u32>
        ensures { result ≡ (view self.now).pending }
    {
        self.pending
    }
}

impl Cells {
    /// Cells with these starting words, and seat 0. Where memory is wanted the run is dropped.
    pub fn new(
        alloc: Global,
        words: &[u32],
        mode: Mode,
        run: Run,
    ) -> Result<(Cells, Seat), NoMemory>
        requires served { run.served ≡ 0 }
        requires words { length words.now ≡ run.program.units }
        requires room { 2 * run.limits.steps + 256 ≤ length run.history + run.spare }
        ensures cells { IfOk result (λ c. IsOf c.0 c.1) }
        ensures origin { IfOk result (λ c. origin c.0 ≡ started mode words.now run) }
        ensures seat { IfOk result (λ c. view c.1 ≡ first_view (started mode words.now run)) }
    {
        run.known();
        let all = widened(alloc, words)?;
        let start = Start {
            mode,
            words: Snapshot::of(&all),
            run: Snapshot::of(&run),
        };
        let mut slots = Vec::with_capacity(alloc, 1)?;
        slots.push_reserved(Some(run));
        match Table::new(alloc, all.as_slice(), slots, &start) {
            Ok((table, inner)) => {
                let seat = Seat {
                    inner,
                    number: 0,
                    pending: None,
                };
                Ok((
                    Cells {
                        alloc,
                        table,
                        start,
                    },
                    seat,
                ))
            }
            Err(Refused { slots: _ }) => Err(AllocError),
        }
    }

    pub fn mode(&self) -> Mode
        ensures { result ≡ (origin self.now).mode }
    {
        self.start.mode
    }

    /// Waits until the seat has the turn, and with it the run.
    pub fn take_turn<R: Wait>(&self, rt: &R, seat: &mut Seat) -> Run
        requires cells { IsOf self.now seat.old }
        requires rests { (view seat.old).holding ≡ false }
        ensures seat { IsSameSeat seat.old seat.new }
        ensures view { view seat.new ≡ after_take (view seat.old) result }
        ensures run { IsHanded (view seat.old) result }
    {
        let shared = &self.table.shared;
        let inner = &mut seat.inner;
        for _ in rt.forever() {
            if shared.compare_exchange::<Take>(inner, 0, 0, 1) == 0 {
                return shared.exchange(inner, 0, None).unwrap();
            }
            yield_now();
        }
        unreachable!()
    }

    /// Gives the turn and the run. The seat's pending unit is recorded in the run, and `due` is the unit at whose counter
    /// its goroutine then stands.
    pub fn give_turn(&self, seat: &mut Seat, run: Run, due: Option<u32>)
        requires cells { IsOf self.now seat.old }
        requires holds { (view seat.old).holding ≡ true }
        requires run { MayGive (view seat.old) run }
        requires due { due ≡ due_after run.program run.history (view seat.old).number }
        ensures seat { IsSameSeat seat.old seat.new }
        ensures view { view seat.new ≡ after_give (view seat.old) run due }
    {
        standing();
        run.known();
        let shared = &self.table.shared;
        let inner = &mut seat.inner;
        drop(shared.exchange(inner, 0, Some(run)));
        shared.swap::<Give>(inner, 0, 0);
        seat.pending = None;
    }

    /// Counts the due unit: one more than its word was.
    pub fn bump(&self, seat: &mut Seat, unit: u32)
        requires cells { IsOf self.now seat.old }
        requires mode { (origin self.now).mode ≡ mode.Atomic }
        requires due { ((view seat.old).due ≡ Some unit) × (unit < (origin self.now).program.units) }
        requires idle { ((view seat.old).pending ≡ None) × ((view seat.old).holding ≡ false) }
        ensures seat { IsSameSeat seat.old seat.new }
        ensures view { view seat.new ≡ after_count (view seat.old) }
    {
        self.table
            .shared
            .fetch_add::<Counting>(&mut seat.inner, unit as usize + 1, 1);
        seat.pending = Some(unit);
    }

    /// Counts the due unit: its word is 1.
    pub fn set(&self, seat: &mut Seat, unit: u32)
        requires cells { IsOf self.now seat.old }
        requires mode { (origin self.now).mode ≡ mode.Set }
        requires due { ((view seat.old).due ≡ Some unit) × (unit < (origin self.now).program.units) }
        requires idle { ((view seat.old).pending ≡ None) × ((view seat.old).holding ≡ false) }
        ensures seat { IsSameSeat seat.old seat.new }
        ensures view { view seat.new ≡ after_count (view seat.old) }
    {
        self.table
            .shared
            .swap::<Counting>(&mut seat.inner, unit as usize + 1, 1);
        seat.pending = Some(unit);
    }

    /// A new seat, for the next goroutine of the run in hand.
    pub fn split(&self, seat: &mut Seat, run: &mut Run) -> Seat
        requires cells { IsOf self.now seat.old }
        requires first { (view seat.old).number ≡ 0 }
        requires holds { (view seat.old).holding ≡ true }
        requires run { run.old.served ≡ (view seat.old).served }
        requires more { run.old.served < goroutines_after run.old.program run.old.history }
        ensures seat { IsSameSeat seat.old seat.new }
        ensures view { view seat.new ≡ after_split (view seat.old) }
        ensures cells { IsOf self.now result }
        ensures new { view result ≡ new_view (view seat.old) }
        ensures run { run.new ≡ record run.old { served = suc run.old.served } }
    {
        run.serve();
        let number = run.served();
        Seat {
            inner: self.table.shared.split_seat::<Splitting>(&mut seat.inner),
            number,
            pending: None,
        }
    }

    /// Joins a seat to another, which then knows the longer of the two histories given.
    pub fn join(&self, seat: &mut Seat, other: Seat)
        requires cells { IsOf self.now seat.old × IsOf self.now other }
        requires rests { ((view seat.old).holding ≡ false) × ((view other).holding ≡ false) }
        requires done { ((view other).due ≡ None) × ((view other).pending ≡ None) }
        requires other { (view other).number ≢ 0 }
        ensures seat { IsSameSeat seat.old seat.new }
        ensures view { view seat.new ≡ after_join (view seat.old) (view other) }
        ensures given { Begins (view seat.old).given (view seat.new).given × Begins (view other).given (view seat.new).given }
    {
        let Seat {
            inner,
            number: _,
            pending: _,
        } = other;
        self.table
            .shared
            .join_seat::<Joining>(&mut seat.inner, inner);
        self.table.shared.load::<Looking>(&mut seat.inner, 0);
    }
}
