//! What is done with the counts of two directories.
ghost use Rattle.std.specs.Prelude.{◌≡◌, OnOk};
ghost use Rattle.cov_table.specs.Refusal.{Agree};
ghost use Rattle.gocov_tools.specs.Combine.{operated};

use cov_outside::NoMemory;
use cov_table::{Table, TableRefusal};
use std::alloc::AllocError;

/// What is done with the counts of two directories.
#[derive(Clone, Copy, Debug, PartialEq, Eq)]
pub enum Operation {
    Subtract,
    Intersect,
}

/// Does an operation on tables whose modes agree.
pub fn operate(operation: Operation, table: &mut Table, other: &Table) -> Result<(), NoMemory>
    requires { Agree table.old.mode other.now.mode }
    ensures { OnOk result (table.new ≡ operated operation table.old other.now) }
{
    let answer = match operation {
        Operation::Subtract => table.subtract(other),
        Operation::Intersect => table.intersect(other),
    };
    match answer {
        Ok(()) => Ok(()),
        Err(TableRefusal::NoMemory) => Err(AllocError),
        Err(TableRefusal::ModeClash { .. }) => unreachable!(),
    }
}
