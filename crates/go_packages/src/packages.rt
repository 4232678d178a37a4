//! Packages.
ghost use Rattle.std.specs.Prelude.{◌≡◌, ◌-◌, [], length, IfOk};
ghost use Rattle.std.specs.Option.{option_copied};
ghost use Rattle.go_types.specs.Packages.{Tells};
ghost use Rattle.go_packages.specs.Packages as spec;
ghost use Rattle.go_packages.specs.Behind as behind;

use crate::bodies::Bodies;
use crate::constants::{Sources, consts_of, hiding_of};
use crate::draft::{Draft, Globals};
use crate::imports::{imported, imports_of, none_used, unused_import};
use crate::lower::last_named;
use crate::outline::{Outline, no_types};
use go_ast::{NoMemory, Package, SourceFile, SourceKind};
use go_meaning::{Function, Node, ProgramPackage};
use go_types::{
    Binding, Callee, Declared, Fault, Lifo, Marks, Meaning, Names, PackageRefusal, Placed, Walk,
    declared_in, names_fault,
};
use sqlite_items::Items;
use std::alloc::Global;

/// What the packages so far have become.
#[derive(Drop)]
pub struct Built {
    /// The names of those packages and the signatures of their functions.
    pub names: Names,
    pub packages: Items<ProgramPackage>,
    pub functions: Items<Function>,
    pub lists: Items<Items<Node>>,
    pub globals: Globals,
    pub units: u32,
    /// The number of the last package's function `main`, if it is the root.
    pub main: u64,
}

#[tactic(auto, unfolding(crate::specs::Packages::sources_of))]
fn sources_of(alloc: Global, before: &[Package], files: &[SourceFile]) -> Result<Sources, NoMemory>
    ensures { IfOk result (λ s. s ≡ spec.sources_of before.now files.now) }
{
    let imports = imports_of(alloc, before, files)?;
    let consts = consts_of(alloc, files)?;
    let hiding = hiding_of(alloc, consts.as_slice())?;
    Ok(Sources {
        imports,
        consts,
        hiding,
    })
}

/// The signatures of a package, and what its names mean while constants and variables are checked.
#[tactic(auto, unfolding(crate::specs::Packages::outlined))]
fn outlined(
    alloc: Global,
    root: bool,
    declared: &[Declared],
    files: &[SourceFile],
    sources: &Sources,
    names: Names,
) -> Result<Outline, NoMemory>
    ensures { IfOk result (λ o. o ≡ spec.outlined root declared.now files.now sources.now names) }
{
    let mut names = names;
    names.imports = imported(alloc, sources.imports.as_slice())?;
    names.own = no_types(alloc, declared)?;
    let mut outline = Outline {
        names,
        own: Lifo::new(alloc),
        fault: None,
    };
    outline.add_files(alloc, root, sources.imports.as_slice(), files)?;
    Ok(outline)
}

fn draft_of(
    alloc: Global,
    outline: Outline,
    sources: &Sources,
    globals: Globals,
) -> Result<Draft, NoMemory>
    ensures { IfOk result (λ d. d ≡ spec.draft_of outline sources.now globals) }
{
    let Outline { names, own, .. } = outline;
    let mut names = names;
    names.own = own;
    let used = none_used(alloc, sources.imports.as_slice())?;
    Ok(Draft {
        names,
        marks: Marks {
            read: Items::new(alloc),
            used,
        },
        globals,
        known: 0,
        passed: 0,
    })
}

fn none_met(fault: Option<Placed>) -> Result<(), PackageRefusal>
    ensures { Tells (spec.none_met fault) result }
{
    match fault {
        Some(placed) => Err(PackageRefusal::At(placed)),
        None => Ok(()),
    }
}

/// Checks constants and variables.
#[tactic(auto, unfolding(crate::specs::Packages::drafted))]
fn drafted(
    alloc: Global,
    files: &[SourceFile],
    sources: &Sources,
    globals: Globals,
    outline: Outline,
) -> Result<Draft, PackageRefusal>
    ensures { Tells (spec.drafted files.now sources.now globals outline) result }
{
    let fault = outline.fault;
    let mut draft = draft_of(alloc, outline, sources, globals)?;
    draft.pass(alloc, files, sources)?;
    none_met(fault)?;
    Ok(draft)
}

fn walk_of(alloc: Global, names: Names, marks: Marks, lists: Items<Items<Node>>, units: u32) -> Walk
    ensures { result ≡ record { names = names; scope = 0; marks = marks; declared = []; labels = []; named = []; around = []; results = []; lists = lists; first_unit = units } }
{
    Walk {
        names,
        scope: 0,
        marks,
        declared: Items::new(alloc),
        labels: Items::new(alloc),
        named: Items::new(alloc),
        around: Lifo::new(alloc),
        results: Items::new(alloc),
        lists,
        first_unit: units,
    }
}

/// Checks bodies.
#[tactic(auto, unfolding(crate::specs::Packages::walked))]
fn walked(
    alloc: Global,
    files: &[SourceFile],
    sources: &Sources,
    bodies: Bodies,
) -> Result<Bodies, PackageRefusal>
    ensures { Tells (spec.walked files.now sources.now bodies) result }
{
    let mut bodies = bodies;
    bodies.add_files(alloc, sources.imports.as_slice(), files)?;
    unused_import(
        bodies.walk.marks.used.as_slice(),
        sources.imports.as_slice(),
    )?;
    Ok(bodies)
}

fn no_main() -> PackageRefusal
    ensures { result ≡ PackageRefusal.At (record { file = 0; fault = record { offset = 0; kind = SourceKind.BadName } }) }
{
    PackageRefusal::At(Placed {
        file: 0,
        fault: Fault {
            offset: 0,
            kind: SourceKind::BadName,
        },
    })
}

/// The number of the function `main` of the root.
fn main_of(root: bool, own: &[Binding]) -> Result<u64, PackageRefusal>
    ensures { Tells (spec.main_of root own.now) result }
{
    if !root {
        return Ok(0);
    }
    match last_named(b"main", own) {
        Some(Meaning::Callee(Callee::Function(number))) => Ok(*number),
        _ => Err(no_main()),
    }
}

fn names_behind(alloc: Global, names: Names) -> Result<Names, NoMemory>
    ensures { IfOk result (λ ns. ns ≡ spec.names_behind names) }
{
    let Names {
        packages,
        own,
        signatures,
        ..
    } = names;
    let mut packages = packages;
    packages.push(own)?;
    Ok(Names {
        packages,
        own: Lifo::new(alloc),
        signatures,
        imports: Items::new(alloc),
        locals: Lifo::new(alloc),
    })
}

fn package_built(one: &Package, before: usize, functions: usize) -> Result<ProgramPackage, NoMemory>
    ensures { IfOk result (λ p. p ≡ record { path = one.now.path; name = one.now.name; functions = functions - before }) }
{
    Ok(ProgramPackage {
        path: one.path.clone()?,
        name: one.name.clone()?,
        functions: functions.saturating_sub(before) as u64,
    })
}

fn built_behind_these(
    alloc: Global,
    one: &Package,
    these: Items<ProgramPackage>,
    before: usize,
    globals: Globals,
    bodies: Bodies,
    main: u64,
) -> Result<Built, NoMemory>
    ensures { IfOk result (λ b. b ≡ spec.built_behind_these one.now these before globals bodies main) }
{
    let Bodies { walk, functions } = bodies;
    let mut packages = these;
    packages.push(package_built(one, before, functions.len())?)?;
    Ok(Built {
        names: names_behind(alloc, walk.names)?,
        packages,
        functions,
        lists: walk.lists,
        globals,
        units: walk.first_unit,
        main,
    })
}

/// What the packages before have become, but for their names and globals.
#[derive(Drop)]
pub struct Rest {
    pub packages: Items<ProgramPackage>,
    pub functions: Items<Function>,
    pub lists: Items<Items<Node>>,
    pub units: u32,
}

/// A package whose constants and variables are checked, behind those before it.
#[tactic(auto, unfolding(crate::specs::Behind::finished))]
fn finished(
    alloc: Global,
    root: bool,
    one: &Package,
    sources: &Sources,
    draft: Draft,
    rest: Rest,
) -> Result<Built, PackageRefusal>
    ensures { Tells (behind.finished root one.now sources.now draft rest) result }
{
    let Draft {
        names,
        marks,
        globals,
        ..
    } = draft;
    let Rest {
        packages,
        functions,
        lists,
        units,
    } = rest;
    let count = functions.len();
    let bodies = Bodies {
        walk: walk_of(alloc, names, marks, lists, units),
        functions,
    };
    let bodies = walked(alloc, one.files.as_slice(), sources, bodies)?;
    let main = main_of(root, bodies.walk.names.own.as_slice())?;
    Ok(built_behind_these(alloc, one, packages, count, globals, bodies, main)?)
}

/// A package whose names are declared, behind those before it.
#[tactic(auto, unfolding(crate::specs::Packages::package_of, crate::specs::Behind::finished))]
fn package_of(
    alloc: Global,
    root: bool,
    one: &Package,
    declared: &[Declared],
    sources: &Sources,
    built: Built,
) -> Result<Built, PackageRefusal>
    ensures { Tells (spec.package_of root one.now sources.now built (spec.outlined root declared.now one.now.files sources.now built.names)) result }
{
    let Built {
        names,
        packages,
        functions,
        lists,
        globals,
        units,
        ..
    } = built;
    let rest = Rest {
        packages,
        functions,
        lists,
        units,
    };
    let files = one.files.as_slice();
    let outline = outlined(alloc, root, declared, files, sources, names)?;
    let draft = drafted(alloc, files, sources, globals, outline)?;
    finished(alloc, root, one, sources, draft, rest)
}

/// What a package is checked to be, where these packages stand before and are built.
#[tactic(auto, unfolding(crate::specs::Packages::checked_package))]
pub fn check_package(
    alloc: Global,
    root: bool,
    before: &[Package],
    one: &Package,
    built: Built,
) -> Result<Built, PackageRefusal>
    ensures { Tells (spec.checked_package root before.now one.now built) result }
{
    let files = one.files.as_slice();
    let declared = declared_in(alloc, before, files)?;
    names_fault(declared.as_slice())?;
    let sources = sources_of(alloc, before, files)?;
    package_of(alloc, root, one, declared.as_slice(), &sources, built)
}
