//! The limit on the units of a module.
ghost use Rattle.std.specs.Prelude.{◌≤◌, All, IfOk, OnOk, sum_by};
ghost use Rattle.cov_outside.specs.Limits.{limit_number};
ghost use Rattle.go_load.specs.Loading.{AreRead, IsTreeRead};
ghost use Rattle.go_load.specs.Refusals.{Answers, Is, IsNoRead};
ghost use Rattle.go_load.specs.Sources.{ReadsSources};
ghost use Rattle.gocov_run.specs.Units as spec;

use cov_cut::laws::{parsed, within};
use cov_cut::{FuncUnits, cut};
use cov_outside::Which;
use go_ast::{Module, NoMemory, SourceFile};
use go_load::{LoadRefusal, Loaded};
use std::alloc::Global;

/// The most units of a module.
const MOST_UNITS: usize = 1_048_576;

/// What is left of so many units behind those of functions, where there are so many.
fn left_by_functions(functions: &[FuncUnits], many: usize) -> Option<usize>
    ensures { spec.Leaves many (spec.units_in_functions functions.now) result }
{
    let mut left = many;
    for function in functions {
        let units = function.units.len();
        if units > left {
            return None;
        }
        left -= units;
    }
    Some(left)
}

/// The same behind those of a file.
fn left_by_file(alloc: Global, file: &SourceFile, many: usize) -> Result<Option<usize>, NoMemory>
    requires { IsTreeRead ReadsSources file.now.tree }
    ensures { IfOk result (λ left. spec.Leaves many (spec.units_in_file file.now) left) }
{
    parsed();
    within();
    let functions = cut(alloc, &file.tree)?;
    Ok(left_by_functions(&functions, many))
}

/// The same behind those of files.
fn left_by_files(
    alloc: Global,
    files: &[SourceFile],
    many: usize,
) -> Result<Option<usize>, NoMemory>
    requires { All (λ f. IsTreeRead ReadsSources f.tree) files.now }
    ensures { IfOk result (λ left. spec.Leaves many (sum_by spec.units_in_file files.now) left) }
{
    let mut left = many;
    for file in files {
        match left_by_file(alloc, file, left)? {
            Some(rest) => left = rest,
            None => return Ok(None),
        }
    }
    Ok(Some(left))
}

/// The same behind those of a module.
fn left_by_module(alloc: Global, module: &Module, many: usize) -> Result<Option<usize>, NoMemory>
    requires { All (λ p. All (λ f. IsTreeRead ReadsSources f.tree) p.files) «module».now.packages }
    ensures { IfOk result (λ left. spec.Leaves many (spec.units_in «module».now) left) }
{
    let mut left = many;
    for package in module.packages.as_slice() {
        match left_by_files(alloc, package.files.as_slice(), left)? {
            Some(rest) => left = rest,
            None => return Ok(None),
        }
    }
    Ok(Some(left))
}

/// Tells whether a module has no more units than it may have.
pub(crate) fn check_units(alloc: Global, loaded: &Loaded) -> Result<(), LoadRefusal>
    requires { AreRead ReadsSources loaded.now }
    ensures told { Answers (λ _. spec.units_in loaded.now.«module») result (Is (spec.within_units loaded.now.«module»)) }
    ensures few { OnOk result (spec.units_in loaded.now.«module» ≤ limit_number Which.Units) }
    ensures no_read { IsNoRead result }
{
    match left_by_module(alloc, &loaded.module, MOST_UNITS)? {
        Some(_) => Ok(()),
        None => Err(LoadRefusal::Limit(Which::Units)),
    }
}
