//! A program with its counters.
ghost use Rattle.std.specs.Prelude.{◌≡◌, ◌<◌, ◌+◌, ◌^◌, IfOk};
ghost use Rattle.go_meaning.specs.Erasing.{IsUncounted};
ghost use Rattle.go_meaning.specs.Programs as programs;
ghost use Rattle.go_meaning.specs.Units as spec;
ghost use Rattle.cov_cut.specs.Owners as owners;

use crate::counters::{counted_list, same_list};
use crate::owners::{begun, is_cut};
use go_ast::NoMemory;
use go_meaning::laws::covering;
use go_meaning::{Function, Node, Program, copy_functions, copy_globals, copy_packages};
use sqlite_items::Items;
use std::alloc::Global;

/// A list with the counters of its units, if it is cut, and the number of the next unit.
fn counted_in(
    alloc: Global,
    cut: bool,
    unit: u32,
    list: &[Node],
) -> Result<(Items<Node>, u32), NoMemory>
    requires { unit + spec.units_in cut list.now < 2 ^ 32 }
    ensures counted { IfOk result (λ r. r.0 ≡ spec.counted_in cut unit list.now) }
    ensures next { IfOk result (λ r. r.1 ≡ unit + spec.units_in cut list.now) }
{
    if cut {
        counted_list(alloc, unit, list)
    } else {
        Ok((same_list(alloc, list)?, unit))
    }
}

/// All lists with their counters, and how many units there are.
fn counted_lists(
    alloc: Global,
    functions: &[Function],
    lists: &[Items<Node>],
) -> Result<(Items<Items<Node>>, u32), NoMemory>
    requires { spec.units_of (owners.is_cut functions.now) 0 lists.now < 2 ^ 32 }
    ensures counted { IfOk result (λ r. r.0 ≡ spec.counted_lists (owners.is_cut functions.now) 0 0 lists.now) }
    ensures units { IfOk result (λ r. r.1 ≡ spec.units_of (owners.is_cut functions.now) 0 lists.now) }
{
    let mut counted = Items::new(alloc);
    let mut unit = 0;
    let mut owner = 0;
    for (number, list) in lists.iter().enumerate() {
        owner = begun(functions, owner, number as u64);
        let (nodes, next) = counted_in(alloc, is_cut(functions, owner), unit, list.as_slice())?;
        counted.push(nodes)?;
        unit = next;
    }
    Ok((counted, unit))
}

/// The program with a counter at the start of each unit. Units are numbered list by list.
pub fn with_counts(alloc: Global, program: &Program) -> Result<Program, NoMemory>
    requires uncounted { IsUncounted program.now }
    requires few { spec.units_of (programs.is_cut program.now) 0 program.now.lists < 2 ^ 32 }
    ensures { IfOk result (λ counted. counted ≡ spec.counted program.now) }
{
    program.known();
    covering();
    let (lists, units) = counted_lists(alloc, program.functions(), program.lists())?;
    Ok(Program::new(
        copy_packages(alloc, program.packages())?,
        copy_functions(alloc, program.functions())?,
        lists,
        copy_globals(alloc, program.globals())?,
        units,
        program.main(),
    ))
}
