//! What the files of a package import.
ghost use Rattle.std.specs.Prelude.{◌≡◌, ◌++◌, map, IfOk, OnOk};
ghost use Rattle.go_types.specs.Packages.{Tells};
ghost use Rattle.go_packages.specs.Imports as spec;

use crate::lower::is_blank;
use go_ast::{Import, NoMemory, Package, SourceFile, SourceKind, Text};
use go_types::{
    Binding, Fault, Imported, Meaning, Names, PackageRefusal, Placed, import_name, imported_of,
};
use sqlite_items::Items;
use std::alloc::Global;

/// An import of a file.
#[derive(Drop)]
pub struct FileImport {
    /// The name that it declares.
    pub name: Text,
    pub at: u32,
    /// The number of the file in its package.
    pub file: u64,
    pub of: Imported,
}

fn file_import(
    alloc: Global,
    before: &[Package],
    file: u64,
    import: &Import,
) -> Result<FileImport, NoMemory>
    ensures { IfOk result (λ i. i ≡ spec.file_import before.now file import.now) }
{
    let path = import.path.bytes();
    Ok(FileImport {
        name: Text::of(alloc, import_name(before, path))?,
        at: import.at,
        file,
        of: imported_of(before, path),
    })
}

/// Appends the imports of a file.
fn add_imports(
    alloc: Global,
    all: &mut Items<FileImport>,
    before: &[Package],
    file: u64,
    imports: &[Import],
) -> Result<(), NoMemory>
    ensures { OnOk result (all.new ≡ all.old ++ map (spec.file_import before.now file) imports.now) }
{
    for import in imports {
        let one = file_import(alloc, before, file, import)?;
        all.push(one)?;
    }
    Ok(())
}

/// The imports of a package by file and offset, where these packages stand before.
pub fn imports_of(
    alloc: Global,
    before: &[Package],
    files: &[SourceFile],
) -> Result<Items<FileImport>, NoMemory>
    ensures { IfOk result (λ all. all ≡ spec.imports_from before.now 0 files.now) }
{
    let mut all = Items::new(alloc);
    for (number, file) in files.iter().enumerate() {
        add_imports(
            alloc,
            &mut all,
            before,
            number as u64,
            file.tree.imports.as_slice(),
        )?;
    }
    Ok(all)
}

/// What the imports import, by their numbers.
pub fn imported(alloc: Global, imports: &[FileImport]) -> Result<Items<Imported>, NoMemory>
    ensures { IfOk result (λ all. all ≡ spec.imported imports.now) }
{
    let mut all = Items::new(alloc);
    for import in imports {
        all.push(import.of)?;
    }
    Ok(all)
}

/// That no import is used so far.
pub fn none_used(alloc: Global, imports: &[FileImport]) -> Result<Items<bool>, NoMemory>
    ensures { IfOk result (λ all. all ≡ spec.none_used imports.now) }
{
    let mut all = Items::new(alloc);
    for _import in imports {
        all.push(false)?;
    }
    Ok(all)
}

impl FileImport {
    fn is_named_in(&self, file: u64) -> bool
        ensures { result ≡ spec.is_named_in file self.now }
    {
        self.file == file && !is_blank(self.name.bytes())
    }
}

/// Enters a file: its imports are known.
#[tactic(auto, unfolding(crate::specs::Imports::in_file))]
pub fn enter(names: &mut Names, imports: &[FileImport], file: u64) -> Result<(), NoMemory>
    ensures { OnOk result (names.new ≡ spec.in_file imports.now file names.old) }
{
    names.locals.truncate(0);
    for (number, import) in imports.iter().enumerate() {
        if import.is_named_in(file) {
            names.locals.push(Binding {
                name: import.name.clone()?,
                meaning: Meaning::Import(number as u64),
            })?;
        }
    }
    Ok(())
}

/// The first import that isn't used.
pub fn unused_import(used: &[bool], imports: &[FileImport]) -> Result<(), PackageRefusal>
    ensures { Tells (spec.unused_import used.now imports.now) result }
{
    let mut left = imports;
    for is_used in used {
        let [import, rest @ ..] = left else {
            return Ok(());
        };
        if !*is_used {
            return Err(PackageRefusal::At(Placed {
                file: import.file,
                fault: Fault {
                    offset: import.at,
                    kind: SourceKind::UnusedImport,
                },
            }));
        }
        left = rest;
    }
    Ok(())
}
