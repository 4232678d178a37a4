//! A word that wraps around.
ghost use Rattle.std.specs.Prelude.{◌≡◌, ◌<◌, ◌^◌, None, Some, OnOk};
ghost use Rattle.cov_outside.specs.declared.mode.Mode.TheVariants.{Atomic};
ghost use Rattle.cov_cells.specs.Seats.{view, origin};
ghost use Rattle.cells_rows.specs.Between.{IsBetween};

use crate::program::one_counter;
use crate::turns::{begun, first_turn, turn};
use cov_cells::{Cells, Closed, Seat};
use cov_outside::Mode;
use go_ast::NoMemory;
use go_meaning::Program;
use std::alloc::AllocError;
use std::sync::Wait;
use std::test::Fail;

// Goroutine 1 stands at a counter, counts, and records it.
fn worked<R: Wait>(
    rt: &R,
    cells: &Cells,
    worker: &mut Seat,
    program: &Program,
) -> Result<(), NoMemory>
    requires between { IsBetween cells.now worker.old }
    requires number { (0 < (view worker.old).number) × ((view worker.old).number < 2 ^ 16) }
    requires program { program.now ≡ (origin cells.now).program }
    requires mode { (origin cells.now).mode ≡ Atomic }
    ensures between { OnOk result (IsBetween cells.now worker.new) }
    ensures same { OnOk result (((view worker.new).number ≡ (view worker.old).number) × ((view worker.new).gathered ≡ (view worker.old).gathered)) }
    ensures done { OnOk result (((view worker.new).due ≡ None) × ((view worker.new).pending ≡ None)) }
{
    let Some(unit) = turn(rt, cells, worker, program)? else {
        return Err(AllocError);
    };
    if unit >= program.units() {
        return Err(AllocError);
    }
    cells.bump(worker, unit);
    match turn(rt, cells, worker, program)? {
        None => Ok(()),
        Some(_) => Err(AllocError),
    }
}

// Seat 0 makes a seat, which works, and joins it.
fn counted<R: Wait>(
    rt: &R,
    cells: Cells,
    mut seat: Seat,
    program: &Program,
) -> Result<Closed, NoMemory>
    requires between { IsBetween cells seat }
    requires first { ((view seat).number ≡ 0) × ((view seat).pending ≡ None) × ((view seat).made ≡ 0) × ((view seat).gathered ≡ 0) }
    requires program { program.now ≡ (origin cells).program }
    requires mode { (origin cells).mode ≡ Atomic }
{
    let mut worker = first_turn(rt, &cells, &mut seat)?;
    worked(rt, &cells, &mut worker, program)?;
    cells.join(&mut seat, worker);
    cells.close(seat)
}

#[test]
fn wraps_around(rt: HostRuntime) -> Result<(), Fail> {
    let program = one_counter(rt.alloc())?;
    let run = begun(rt.alloc(), &program)?;
    let words = [u32::MAX];
    let (cells, seat) = Cells::new(rt.alloc(), words.as_slice(), Mode::Atomic, run)?;
    assert!(rt; cells.mode() == Mode::Atomic);
    assert_eq!(rt; seat.number(), 0);
    assert!(rt; seat.pending().is_none());
    let closed = counted(&rt, cells, seat, &program)?;
    assert_eq!(rt; closed.words(), [0].as_slice());
    assert_eq!(rt; closed.run().events().len(), 2);
    Ok(())
}
