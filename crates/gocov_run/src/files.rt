//! The paths and texts of the files of a module.
ghost use Rattle.std.specs.Prelude.{◌≡◌, IfOk, drop};
ghost use Rattle.go_load.specs.Packages as load;
ghost use Rattle.gocov_run.specs.Faults as spec;

use cov_outside::Sequence;
use go_ast::{Module, NoMemory, Package, Text};
use go_load::Loaded;
use sqlite_items::at;
use std::alloc::Global;

/// The directory, a slash and the name.
fn path_in(alloc: Global, dir: &Text, name: &Text) -> Result<Text, NoMemory>
    ensures { IfOk result (λ path. path ≡ load.path_in dir.now name.now) }
{
    let mut path = Text::of(alloc, dir.bytes())?;
    path.append(b"/")?;
    path.append(name.bytes())?;
    Ok(path)
}

/// The path of the file with a number in a package.
fn path_in_package(alloc: Global, package: &Package, file: usize) -> Result<Text, NoMemory>
    ensures { IfOk result (λ path. path ≡ spec.path_in_package file (Some «package».now)) }
{
    match package.files.get(file) {
        Some(found) => path_in(alloc, &package.dir, &found.name),
        None => Ok(Text::new(alloc)),
    }
}

/// The path of the file with a number in the package with a number.
pub(crate) fn path_of(
    alloc: Global,
    module: &Module,
    package: usize,
    file: usize,
) -> Result<Text, NoMemory>
    ensures { IfOk result (λ path. path ≡ spec.path_of «module».now «package» file) }
{
    match module.packages.get(package) {
        Some(found) => path_in_package(alloc, found, file),
        None => Ok(Text::new(alloc)),
    }
}

/// The texts behind so many others.
fn texts_behind(texts: &[Sequence<u8>], many: usize) -> &[Sequence<u8>]
    ensures { result.now ≡ drop many texts.now }
{
    if many < texts.len() {
        &texts[many..]
    } else {
        &[]
    }
}

/// The texts behind those of the files of packages.
fn texts_after<'a>(texts: &'a [Sequence<u8>], packages: &[Package]) -> &'a [Sequence<u8>]
    ensures { result.now ≡ drop (spec.files_in packages.now) texts.now }
{
    let mut left = texts;
    for package in packages {
        left = texts_behind(left, package.files.len());
    }
    left
}

/// The text of the file with a number in the package with a number.
#[tactic(auto, using(std::proofs::lemmas::List::take_min))]
pub(crate) fn text_of(loaded: &Loaded, package: usize, file: usize) -> &[u8]
    ensures { result.now ≡ spec.text_of loaded.now «package» file }
{
    let packages = loaded.module.packages.as_slice();
    let earlier = &packages[..package.min(packages.len())];
    let texts = texts_after(loaded.texts.as_slice(), earlier);
    match at(texts, file) {
        Some(text) => text.as_slice(),
        None => &[],
    }
}
