//! Finding all packages of a module.
ghost use Rattle.std.specs.Prelude.{◌≡◌, ◌≤◌, ◌<◌, All, IfOk, IfSome, MatchOption, OnOk, List, ℕ, length, filter, map, slice_get};
ghost use Rattle.std.specs.Str.{IsUtf8};
ghost use Rattle.cov_bytes.specs.Intern.{with_text};
ghost use Rattle.go_load.specs.Packages as spec;
ghost use Rattle.go_load.specs.Packages.{IsPackagePath, IsPackageRead, Packages, with_texts};
ghost use Rattle.go_load.specs.Paths as paths;
ghost use Rattle.go_load.specs.Refusals.{Answers, CountsRead};

use crate::contents::{Found, Home};
use crate::paths::is_own;
use crate::reader::ReadsSource;
use crate::refusal::LoadRefusal;
use crate::visit::read_package;
use cov_bytes::StringTable;
use cov_outside::{Files, Which};
use go_ast::{Import, NoMemory};
use std::alloc::{AllocError, Global};

/// The most packages of a module.
const MOST_PACKAGES: usize = 1000;

/// A path is met: where it is new it comes last.
fn meet(met: &mut StringTable, path: &[u8]) -> Result<(), NoMemory>
    ensures { OnOk result (met.new ≡ with_text met.old path.now) }
{
    if met.len() >= u32::MAX as usize {
        return Err(AllocError);
    }
    met.intern(path)?;
    Ok(())
}

/// The packages of the module among imports are met.
fn meet_imports(met: &mut StringTable, home: &Home, imports: &[Import]) -> Result<(), NoMemory>
    ensures { OnOk result (met.new ≡ with_texts met.old (filter (paths.is_own home.now.path) (map (λ i. i.path) imports.now))) }
{
    for import in imports {
        let path = import.path.bytes();
        if is_own(home.path.bytes(), path) {
            meet(met, path)?;
        }
    }
    Ok(())
}

/// The packages that a package imports are met.
fn meet_package(met: &mut StringTable, home: &Home, found: &Found) -> Result<(), NoMemory>
    ensures { OnOk result (met.new ≡ with_texts met.old (spec.own_imports home.now found.now)) }
{
    for source in found.sources.as_slice() {
        meet_imports(met, home, source.tree.imports.as_slice())?;
    }
    Ok(())
}

/// Reads the next package that was met, if there is one.
fn read_next<F: Files, S: ReadsSource>(
    alloc: Global,
    files: &mut F,
    reader: &S,
    home: &Home,
    met: &StringTable,
    n: usize,
) -> Result<Option<Found>, LoadRefusal>
    requires met { All (IsPackagePath home.now) met.now }
    requires few { n ≤ 1000 }
    ensures told { IfSome (F.tree files.old) (λ t. Answers (λ found. found) result (spec.NextOf (S.gives reader.now) t home.now met.now n)) }
    ensures few { IfOk result (λ found. IfSome found (λ _. n < 1000)) }
    ensures read { IfOk result (λ found. MatchOption found (length met.now ≤ n) (IsPackageRead (S.gives reader.now))) }
    ensures same { F.tree files.new ≡ F.tree files.old }
    ensures cause { CountsRead (F.read_faults files.old) (F.read_faults files.new) result }
    ensures puts { F.put_faults files.new ≡ F.put_faults files.old }
{
    let Some(path) = met.get(n as u32) else {
        return Ok(None);
    };
    if n == MOST_PACKAGES {
        return Err(LoadRefusal::Limit(Which::Packages));
    }
    Ok(Some(read_package(alloc, files, reader, home, path)?))
}

/// Reads all packages of a module, each after those that were met before it.
pub fn discover<F: Files, S: ReadsSource>(
    alloc: Global,
    files: &mut F,
    reader: &S,
    home: &Home,
) -> Result<Vec<Found>, LoadRefusal>
    requires { IsUtf8 home.now.dir }
    ensures told { IfSome (F.tree files.old) (λ t. Answers (λ founds. founds.items) result (Packages (S.gives reader.now) t home.now)) }
    ensures read { IfOk result (λ founds. All (IsPackageRead (S.gives reader.now)) founds.items) }
    ensures some { IfOk result (λ founds. 0 < length founds.items) }
    ensures same { F.tree files.new ≡ F.tree files.old }
    ensures cause { CountsRead (F.read_faults files.old) (F.read_faults files.new) result }
    ensures puts { F.put_faults files.new ≡ F.put_faults files.old }
{
    let mut met = StringTable::new(alloc);
    meet(&mut met, home.path.bytes())?;
    let mut founds = Vec::new(alloc);
    while let Some(found) = read_next(alloc, files, reader, home, &met, founds.len())? {
        meet_package(&mut met, home, &found)?;
        founds.push(found)?;
    }
    Ok(founds)
}
