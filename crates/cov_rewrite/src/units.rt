//! The units of a file in one list.
ghost use Rattle.std.specs.Prelude.{◌≡◌, IfOk};
ghost use Rattle.std.specs.List.{flat_map};

use cov_cut::{FuncUnits, Unit};
use cov_outside::NoMemory;
use std::alloc::Global;

/// The units of functions in the order of their numbers.
pub fn units_in(alloc: Global, functions: &[FuncUnits]) -> Result<Vec<Unit>, NoMemory>
    ensures { IfOk result (λ units. units.items ≡ flat_map (λ f. f.units) functions.now) }
{
    let mut units = Vec::new(alloc);
    for function in functions {
        units.extend_from_slice(function.units.as_slice())?;
    }
    Ok(units)
}
