//! Reading the packages of a module.
ghost use Rattle.std.specs.Prelude.{◌≡◌, ◌≤◌, ◌<◌, not, All, IfOk, IfSome, length, filter, find, map};
ghost use Rattle.std.specs.List.{list_all};
ghost use Rattle.std.specs.Option.{option_copied};
ghost use Rattle.std.specs.Str.{IsUtf8};
ghost use Rattle.go_load.specs.Names.{is_source_name as is_source};
ghost use Rattle.go_load.specs.Packages as spec;
ghost use Rattle.go_load.specs.Packages.{PackageAt, FromNames, IsPackagePath, IsPackageRead};
ghost use Rattle.go_load.specs.Paths as paths;
ghost use Rattle.go_load.specs.Refusals.{Answers, CountsRead, Is, IsNoRead};

use crate::contents::{Found, Home, Source};
use crate::names::is_source_name;
use crate::paths::is_known;
use crate::reader::ReadsSource;
use crate::refusal::{LoadKind, LoadRefusal};
use crate::source::read_sources;
use cov_outside::{Files, Text as Path};
use go_ast::{Import, NoMemory, Text};
use sqlite_items::Items;
use std::alloc::Global;

/// The name that the first file gives its package.
fn package_name(sources: &[Source]) -> &[u8]
    ensures { result.now ≡ spec.package_name sources.now }
{
    match sources {
        [] => b"",
        [first, ..] => first.tree.package.text.bytes(),
    }
}

fn is_of(source: &Source, name: &[u8]) -> bool
    ensures { result ≡ paths.same source.now.tree.«package».text name.now }
{
    source.tree.package.text.bytes() == name
}

/// Whether all files name their package like this.
fn are_of(sources: &[Source], name: &[u8]) -> bool
    ensures { result ≡ list_all (λ s. paths.same s.tree.«package».text name.now) sources.now }
{
    sources.iter().all(|source| is_of(source, name))
}

/// The first import of a file that there may not be.
fn unknown_in<'a>(home: &Home, imports: &'a [Import]) -> Option<&'a [u8]>
    ensures { option_copied result ≡ find (λ p. not (paths.is_known home.now.path p)) (map (λ i. i.path) imports.now) }
{
    for import in imports {
        let path = import.path.bytes();
        if !is_known(home.path.bytes(), path) {
            return Some(path);
        }
    }
    None
}

/// The first import of a package that there may not be.
fn unknown_of<'a>(home: &Home, sources: &'a [Source]) -> Option<&'a [u8]>
    ensures { option_copied result ≡ find (λ p. not (paths.is_known home.now.path p)) (spec.imports_of sources.now) }
{
    for source in sources {
        if let Some(path) = unknown_in(home, source.tree.imports.as_slice()) {
            return Some(path);
        }
    }
    None
}

fn refused(alloc: Global, path: &[u8], kind: LoadKind) -> Result<LoadRefusal, NoMemory>
    ensures { IfOk result (λ refusal. refusal ≡ spec.refused path.now kind) }
{
    Ok(LoadRefusal::Load {
        path: Text::of(alloc, path)?,
        kind,
    })
}

/// What is wrong with the files of a package, if anything is.
fn flaw_of(
    alloc: Global,
    home: &Home,
    dir: &[u8],
    path: &[u8],
    sources: &[Source],
) -> Result<Option<LoadRefusal>, NoMemory>
    ensures { IfOk result (λ flaw. flaw ≡ spec.flaw_of home.now dir.now path.now sources.now) }
{
    let name = package_name(sources);
    let is_root = path == home.path.bytes();
    let is_main = name == b"main".as_slice();
    if !are_of(sources, name) {
        return Ok(Some(refused(alloc, dir, LoadKind::TwoPackages)?));
    }
    if is_root && !is_main {
        return Ok(Some(refused(alloc, dir, LoadKind::NoMain)?));
    }
    if !is_root && is_main {
        return Ok(Some(refused(alloc, path, LoadKind::ImportsMain)?));
    }
    match unknown_of(home, sources) {
        Some(unknown) => Ok(Some(refused(alloc, unknown, LoadKind::UnknownImport)?)),
        None => Ok(None),
    }
}

/// The directory of a package.
fn dir_of(alloc: Global, home: &Home, path: &[u8]) -> Result<Path, NoMemory>
    requires { length home.now.path ≤ length path.now }
    ensures { IfOk result (λ dir. dir ≡ paths.dir_of home.now.dir home.now.path path.now) }
{
    let mut dir = Vec::from_slice(alloc, home.dir.bytes())?;
    dir.extend_from_slice(&path[home.path.bytes().len()..])?;
    Ok(Path::from_vec(dir))
}

/// The names of source files.
fn source_names(alloc: Global, names: Vec<Path>) -> Result<Vec<Path>, NoMemory>
    ensures { IfOk result (λ kept. kept.items ≡ filter is_source names.items) }
{
    let mut kept = Vec::new(alloc);
    for name in names {
        if is_source_name(name.bytes()) {
            kept.push(name)?;
        }
    }
    Ok(kept)
}

/// A package from its files.
fn package_of(
    alloc: Global,
    home: &Home,
    dir: &Path,
    path: &[u8],
    sources: Vec<Source>,
) -> Result<Found, LoadRefusal>
    requires { dir.now ≡ paths.dir_of home.now.dir home.now.path path.now }
    ensures told { Answers (λ found. found) result (Is (spec.package_of home.now path.now sources.items)) }
    ensures sources { IfOk result (λ found. found.sources ≡ sources.items) }
    ensures no_read { IsNoRead result }
{
    if let Some(flaw) = flaw_of(alloc, home, dir.bytes(), path, &sources)? {
        return Err(flaw);
    }
    Ok(Found {
        path: Text::of(alloc, path)?,
        dir: Text::of(alloc, dir.bytes())?,
        name: Text::of(alloc, package_name(&sources))?,
        sources: Items::from_vec(sources),
    })
}

/// Reads a package of the module.
pub fn read_package<F: Files, S: ReadsSource>(
    alloc: Global,
    files: &mut F,
    reader: &S,
    home: &Home,
    path: &[u8],
) -> Result<Found, LoadRefusal>
    requires { IsPackagePath home.now path.now }
    ensures told { IfSome (F.tree files.old) (λ t. Answers (λ found. found) result (PackageAt (S.gives reader.now) t home.now path.now)) }
    ensures read { IfOk result (IsPackageRead (S.gives reader.now)) }
    ensures same { F.tree files.new ≡ F.tree files.old }
    ensures cause { CountsRead (F.read_faults files.old) (F.read_faults files.new) result }
    ensures puts { F.put_faults files.new ≡ F.put_faults files.old }
{
    let dir = dir_of(alloc, home, path)?;
    let names = source_names(alloc, files.list(alloc, dir.as_str())?)?;
    if names.is_empty() {
        return Err(refused(alloc, dir.bytes(), LoadKind::NoSource)?);
    }
    let sources = read_sources(alloc, files, reader, &dir, &names)?;
    package_of(alloc, home, &dir, path, sources)
}
