//! Sums over the units of each function.
ghost use Rattle.std.specs.Prelude.{◌≡◌, ℕ, List, ◌≤◌, ◌<◌, ◌+◌, ◌^◌, ◌++◌, ◌∷◌, [], map, IfOk, OnOk, unwrap_or};
ghost use Rattle.cov_table.specs.Key.{Key};
ghost use Rattle.cov_table.specs.Unit.{unit_entry};
ghost use Rattle.cov_report.specs.Shares.{statements_of, covered_of};
ghost use Rattle.cov_report.specs.TextProfile.{kept_units};
ghost use Rattle.cov_report.specs.FunctionSums.{function_of, named_function, named_sum, sum_among, AreSums, HasRoom};

use crate::filter::Filter;
use crate::share::{NOTHING, Share, ran};
use cov_outside::NoMemory;
use cov_table::{Unit, Units};
use indexmap::IndexMap;
use std::alloc::Global;

/// What a function is known by.
#[derive(Clone, Copy, Debug, PartialEq, Eq, Hash)]
pub struct FunctionName<'a> {
    pub package_path: &'a [u8],
    pub file: &'a [u8],
    pub function: &'a [u8],
    pub literal: bool,
}

/// The start line of a function's first unit, and how many of its statements ran.
#[derive(Clone, Copy, Debug)]
pub struct FunctionSum {
    pub start_line: u32,
    pub share: Share,
}

/// The sums of functions, in the order of their first units.
pub type FunctionSums<'a> = IndexMap<FunctionName<'a>, FunctionSum>;

/// The function that a unit is of.
fn name_of<'a>(unit: &Unit<'a>) -> FunctionName<'a>
    ensures { named_function result ≡ function_of (unit_entry unit.now).0 }
{
    FunctionName {
        package_path: unit.package_path,
        file: unit.file,
        function: unit.function,
        literal: unit.literal,
    }
}

/// With one more unit.
pub fn with_unit(share: Share, unit: &Unit<'_>) -> Share
    requires covered { share.covered < 2 ^ 100 }
    requires statements { share.statements < 2 ^ 100 }
    ensures covered { result.covered ≡ share.covered + covered_of (unit_entry unit.now ∷ []) }
    ensures statements { result.statements ≡ share.statements + statements_of (unit_entry unit.now ∷ []) }
    ensures small { (result.statements ≤ share.statements + 2 ^ 32) × (result.covered ≤ share.covered + 2 ^ 32) }
{
    Share {
        covered: share.covered + u128::from(ran(unit)),
        statements: share.statements + u128::from(unit.statements),
    }
}

/// The sum of a unit's function over the units before it.
fn sum_before(functions: &FunctionSums<'_>, name: &FunctionName<'_>, unit: &Unit<'_>) -> FunctionSum
    ensures { result ≡ unwrap_or (sum_among (named_function name.now) (map named_sum functions.now.entries)) (record { start_line = unit.now.start_line; share = NOTHING }) }
{
    match functions.get(name) {
        Some(sum) => *sum,
        None => {
            FunctionSum {
                start_line: unit.start_line,
                share: NOTHING,
            }
        }
    }
}

/// Adds a unit to the sum of its function.
fn add_unit<'a>(functions: &mut FunctionSums<'a>, unit: &Unit<'a>) -> Result<(), NoMemory>
    requires { HasRoom functions.old.entries }
    ensures { OnOk result ((units : List (Key × ℕ)) → AreSums units functions.old.entries → AreSums (units ++ unit_entry unit.now ∷ []) functions.new.entries) }
{
    let name = name_of(unit);
    let FunctionSum { start_line, share } = sum_before(functions, &name, unit);
    let share = with_unit(share, unit);
    functions.insert(name, FunctionSum { start_line, share })?;
    Ok(())
}

/// Adds a unit whose package is kept.
fn add_kept<'a>(
    functions: &mut FunctionSums<'a>,
    unit: &Unit<'a>,
    filter: &Filter,
) -> Result<(), NoMemory>
    requires { HasRoom functions.old.entries }
    ensures { OnOk result ((units : List (Key × ℕ)) → AreSums units functions.old.entries → AreSums (units ++ kept_units filter.now.patterns (unit_entry unit.now ∷ [])) functions.new.entries) }
{
    if filter.keeps(unit.package_path) {
        add_unit(functions, unit)?;
    }
    Ok(())
}

/// The sums of the functions of those units whose packages are kept, of which there are not too many.
pub fn sum_functions<'a>(
    alloc: Global,
    units: &Units<'a>,
    filter: &Filter,
) -> Result<FunctionSums<'a>, NoMemory>
    requires statements { statements_of (kept_units filter.now.patterns units.now) < 2 ^ 100 }
    requires covered { covered_of (kept_units filter.now.patterns units.now) < 2 ^ 100 }
    ensures { IfOk result (λ functions. AreSums (kept_units filter.now.patterns units.now) functions.entries) }
{
    let mut functions = IndexMap::new(alloc);
    for i in 0..units.len() {
        if let Some(unit) = units.get(i) {
            add_kept(&mut functions, &unit, filter)?;
        }
    }
    Ok(functions)
}

/// With a unit whose package is kept.
fn with_kept(share: Share, unit: &Unit<'_>, filter: &Filter) -> Share
    requires covered { share.covered < 2 ^ 100 }
    requires statements { share.statements < 2 ^ 100 }
    ensures covered { result.covered ≡ share.covered + covered_of (kept_units filter.now.patterns (unit_entry unit.now ∷ [])) }
    ensures statements { result.statements ≡ share.statements + statements_of (kept_units filter.now.patterns (unit_entry unit.now ∷ [])) }
    ensures small { (result.statements ≤ share.statements + 2 ^ 32) × (result.covered ≤ share.covered + 2 ^ 32) }
{
    if filter.keeps(unit.package_path) {
        with_unit(share, unit)
    } else {
        share
    }
}

/// How many of the statements ran, over all units whose packages are kept.
pub fn total_of(units: &Units<'_>, filter: &Filter) -> Share
    ensures covered { result.covered ≡ covered_of (kept_units filter.now.patterns units.now) }
    ensures statements { result.statements ≡ statements_of (kept_units filter.now.patterns units.now) }
    ensures small { (result.statements < 2 ^ 100) × (result.covered < 2 ^ 100) }
{
    let mut total = NOTHING;
    for i in 0..units.len() {
        if let Some(unit) = units.get(i) {
            total = with_kept(total, &unit, filter);
        }
    }
    total
}
