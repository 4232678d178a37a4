//! Modules.
ghost use Rattle.std.specs.Prelude.{◌≡◌, ◌<◌, [], length};
ghost use Rattle.go_bounds.specs.Modules.{IsSized};
ghost use Rattle.go_packages.specs.Modules as spec;
ghost use Rattle.go_check.specs.Modules as answers;

use crate::parts::ProgramParts;
use crate::refusal::CheckRefusal;
use go_ast::{Module, Package};
use go_bounds::laws::modules_make_programs;
use go_meaning::Program;
use go_packages::{Built, Globals, check_package};
use go_types::{Lifo, Names, PackageRefusal};
use sqlite_items::Items;
use std::alloc::Global;

fn no_names(alloc: Global) -> Names
    ensures { result ≡ spec.no_names }
{
    Names {
        packages: Items::new(alloc),
        own: Lifo::new(alloc),
        signatures: Items::new(alloc),
        imports: Items::new(alloc),
        locals: Lifo::new(alloc),
    }
}

fn nothing(alloc: Global) -> Built
    ensures { result ≡ spec.nothing }
{
    Built {
        names: no_names(alloc),
        packages: Items::new(alloc),
        functions: Items::new(alloc),
        lists: Items::new(alloc),
        globals: Globals {
            all: Items::new(alloc),
            values: 0,
            mutexes: 0,
            groups: 0,
        },
        units: 0,
        main: 0,
    }
}

/// A refusal in the package with a number.
fn refusal_in(number: u64, refusal: PackageRefusal) -> CheckRefusal
    ensures { result ≡ answers.refusal_in number refusal }
{
    match refusal {
        PackageRefusal::At(placed) => CheckRefusal::At {
            package: number,
            file: placed.file,
            offset: placed.fault.offset,
            kind: placed.fault.kind,
        },
        PackageRefusal::NoMemory => CheckRefusal::NoMemory,
    }
}

fn built_of(alloc: Global, packages: &[Package]) -> Result<Built, CheckRefusal>
    ensures { answers.Answers (spec.built_behind [] packages.now spec.nothing) result }
{
    let mut built = nothing(alloc);
    for (number, one) in packages.iter().enumerate() {
        let root = packages[number + 1..].is_empty();
        match check_package(alloc, root, &packages[..number], one, built) {
            Ok(next) => built = next,
            Err(refusal) => return Err(refusal_in(number as u64, refusal)),
        }
    }
    Ok(built)
}

/// The parts of the program of a module that is accepted, or its first fault.
#[tactic(auto, unfolding(go_packages::specs::Modules::built, go_packages::specs::Modules::accepted))]
pub fn parts_of(alloc: Global, module: &Module) -> Result<ProgramParts, CheckRefusal>
    ensures { answers.GivesParts (spec.accepted module.now) result }
{
    let built = built_of(alloc, module.packages.as_slice())?;
    Ok(ProgramParts {
        packages: built.packages,
        functions: built.functions,
        lists: built.lists,
        globals: built.globals.all,
        units: built.units,
        main: built.main,
    })
}

/// The program of a module that is accepted, or its first fault.
pub fn check(alloc: Global, module: &Module) -> Result<Program, CheckRefusal>
    requires sized { IsSized module.now }
    requires rooted { 0 < length module.now.packages }
    ensures { answers.Answers (spec.accepted module.now) result }
{
    let parts = parts_of(alloc, module)?;
    modules_make_programs();
    Ok(Program::new(
        parts.packages,
        parts.functions,
        parts.lists,
        parts.globals,
        parts.units,
        parts.main,
    ))
}
