//! A package whose constants and variables are being checked.
ghost use Rattle.std.specs.Prelude.{◌≡◌, ◌+◌, IfOk};

use go_ast::NoMemory;
use go_meaning::Global as Variable;
use go_types::{Marks, Names};
use sqlite_items::Items;

/// The package variables of a program so far.
#[derive(Drop)]
pub struct Globals {
    pub all: Items<Variable>,
    /// How many of them are neither mutexes nor wait groups.
    pub values: u64,
    pub mutexes: u64,
    pub groups: u64,
}

/// A package whose constants and variables are being checked.
#[derive(Drop)]
pub struct Draft {
    pub names: Names,
    pub marks: Marks,
    pub globals: Globals,
    /// How many of the package's constants are known.
    pub known: u64,
    /// How many of its constants stand before the place.
    pub passed: u64,
}

/// The number behind one.
pub fn next(number: u64) -> Result<u64, NoMemory>
    ensures { IfOk result (λ n. n ≡ number + 1) }
{
    match number.checked_add(1) {
        Some(next) => Ok(next),
        None => Err(std::alloc::AllocError),
    }
}
