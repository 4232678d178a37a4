//! The names that the files of a package declare.
ghost use Rattle.std.specs.Prelude.{◌≡◌, ◌++◌, ◌∷◌, [], map, flat_map, IfOk, OnOk};
ghost use Rattle.std.specs.List.{list_any};
ghost use Rattle.go_types.specs.declared.fault.PackageRefusal.TheVariants as refusal;
ghost use Rattle.go_types.specs.Packages as spec;

use crate::declare::is_blank;
use crate::fault::{Fault, PackageRefusal, Placed};
use crate::names::{Imported, Standard};
use go_ast::{
    ConstSpec, Decl, File, Import, Name, NoMemory, Package, SourceFile, SourceKind, Text, VarSpec,
};
use sqlite_items::{Items, at as item};
use std::alloc::Global;

/// A name that a file of a package declares.
#[derive(Debug, Drop)]
pub struct Declared {
    pub name: Text,
    pub at: u32,
    /// The number of the file in its package.
    pub file: u64,
    /// Whether it is that of an import, which only its file knows.
    pub is_import: bool,
    /// Whether it is a function `init`.
    pub is_init: bool,
}

/// The package of Go's standard library with a path.
fn standard_of(path: &[u8]) -> Option<Standard>
    ensures { result ≡ spec.standard_of path.now }
{
    if path == b"fmt".as_slice() {
        Some(Standard::Fmt)
    } else if path == b"os".as_slice() {
        Some(Standard::Os)
    } else if path == b"strconv".as_slice() {
        Some(Standard::Strconv)
    } else if path == b"sync".as_slice() {
        Some(Standard::Sync)
    } else {
        None
    }
}

/// The number of the package with a path.
fn package_at(before: &[Package], path: &[u8]) -> Option<usize>
    ensures { result ≡ spec.package_at before.now path.now }
{
    before
        .iter()
        .position(|package| package.path.bytes() == path)
}

/// What a path imports, where these packages stand before.
pub fn imported_of(before: &[Package], path: &[u8]) -> Imported
    ensures { result ≡ spec.imported_of before.now path.now }
{
    match standard_of(path) {
        Some(library) => Imported::Standard(library),
        None => Imported::Package(package_at(before, path).unwrap_or(before.len()) as u64),
    }
}

/// The name that the import of a path declares.
pub fn import_name<'a>(before: &'a [Package], path: &'a [u8]) -> &'a [u8]
    ensures { result.now ≡ spec.import_name before.entry.now path.entry.now }
{
    match imported_of(before, path) {
        Imported::Standard(_) => path,
        Imported::Package(number) => match item(before, number as usize) {
            Some(package) => package.name.bytes(),
            None => &[],
        },
    }
}

fn declared_import(
    alloc: Global,
    before: &[Package],
    file: u64,
    import: &Import,
) -> Result<Declared, NoMemory>
    ensures { IfOk result (λ d. d ≡ spec.declared_import before.now file import.now) }
{
    Ok(Declared {
        name: Text::of(alloc, import_name(before, import.path.bytes()))?,
        at: import.at,
        file,
        is_import: true,
        is_init: false,
    })
}

fn declared_name(file: u64, name: &Name) -> Result<Declared, NoMemory>
    ensures { IfOk result (λ d. d ≡ spec.declared_name file name.now) }
{
    Ok(Declared {
        name: name.text.clone()?,
        at: name.at,
        file,
        is_import: false,
        is_init: false,
    })
}

fn declared_function(file: u64, name: &Name) -> Result<Declared, NoMemory>
    ensures { IfOk result (λ d. d ≡ spec.declared_function file name.now) }
{
    Ok(Declared {
        name: name.text.clone()?,
        at: name.at,
        file,
        is_import: false,
        is_init: name.text.bytes() == b"init".as_slice(),
    })
}

/// Appends the names of imports.
fn add_imports(
    alloc: Global,
    all: &mut Items<Declared>,
    before: &[Package],
    file: u64,
    imports: &[Import],
) -> Result<(), NoMemory>
    ensures { OnOk result (all.new ≡ all.old ++ map (spec.declared_import before.now file) imports.now) }
{
    for import in imports {
        let declared = declared_import(alloc, before, file, import)?;
        all.push(declared)?;
    }
    Ok(())
}

/// Appends the names of constants.
fn add_consts(all: &mut Items<Declared>, file: u64, specs: &[ConstSpec]) -> Result<(), NoMemory>
    ensures { OnOk result (all.new ≡ all.old ++ map (spec.declared_const file) specs.now) }
{
    for one in specs {
        let declared = declared_name(file, &one.name)?;
        all.push(declared)?;
    }
    Ok(())
}

/// Appends the names of variables that share a type.
fn add_names(all: &mut Items<Declared>, file: u64, names: &[Name]) -> Result<(), NoMemory>
    ensures { OnOk result (all.new ≡ all.old ++ map (spec.declared_name file) names.now) }
{
    for name in names {
        let declared = declared_name(file, name)?;
        all.push(declared)?;
    }
    Ok(())
}

/// Appends the names of variables.
fn add_vars(all: &mut Items<Declared>, file: u64, specs: &[VarSpec]) -> Result<(), NoMemory>
    ensures { OnOk result (all.new ≡ all.old ++ flat_map (spec.declared_vars file) specs.now) }
{
    for one in specs {
        add_names(all, file, one.names.as_slice())?;
    }
    Ok(())
}

/// Appends the names of a declaration.
fn add_decl(all: &mut Items<Declared>, file: u64, decl: &Decl) -> Result<(), NoMemory>
    ensures { OnOk result (all.new ≡ all.old ++ spec.declared_by file decl.now) }
{
    match decl {
        Decl::Const(specs) => add_consts(all, file, specs.as_slice()),
        Decl::Var(specs) => add_vars(all, file, specs.as_slice()),
        Decl::Func(function) => {
            let declared = declared_function(file, &function.name)?;
            all.push(declared)
        }
    }
}

/// Appends the names of declarations.
fn add_decls(all: &mut Items<Declared>, file: u64, decls: &[Decl]) -> Result<(), NoMemory>
    ensures { OnOk result (all.new ≡ all.old ++ flat_map (spec.declared_by file) decls.now) }
{
    for decl in decls {
        add_decl(all, file, decl)?;
    }
    Ok(())
}

/// Appends the names of a file.
fn add_file(
    alloc: Global,
    all: &mut Items<Declared>,
    before: &[Package],
    file: u64,
    tree: &File,
) -> Result<(), NoMemory>
    ensures { OnOk result (all.new ≡ all.old ++ spec.declared_in_file before.now file tree.now) }
{
    add_imports(alloc, all, before, file, tree.imports.as_slice())?;
    add_decls(all, file, tree.decls.as_slice())
}

/// The names that the files of a package declare, in order, where these packages stand before.
pub fn declared_in(
    alloc: Global,
    before: &[Package],
    files: &[SourceFile],
) -> Result<Items<Declared>, NoMemory>
    ensures { IfOk result (λ all. all ≡ spec.declared_from before.now 0 files.now) }
{
    let mut all = Items::new(alloc);
    for (number, file) in files.iter().enumerate() {
        add_file(alloc, &mut all, before, number as u64, &file.tree)?;
    }
    Ok(all)
}

impl Declared {
    fn clashes_with(&self, other: &Declared) -> bool
        ensures { result ≡ spec.clash self.now other.now }
    {
        self.name.bytes() == other.name.bytes()
            && !is_blank(self.name.bytes())
            && (!(self.is_import && other.is_import) || self.file == other.file)
    }

    fn clashes_with_any(&self, others: &[Declared]) -> bool
        ensures { result ≡ list_any (spec.clash self.now) others.now }
    {
        others.iter().any(|other| self.clashes_with(other))
    }

    fn fault(&self, kind: SourceKind) -> PackageRefusal
        ensures { result ≡ refusal.At (spec.placed self.now kind) }
    {
        PackageRefusal::At(Placed {
            file: self.file,
            fault: Fault {
                offset: self.at,
                kind,
            },
        })
    }

    /// That the name doesn't clash with one before, and is no function `init`.
    fn is_free(&self, before: &[Declared]) -> Result<(), PackageRefusal>
        ensures { spec.Tells (spec.name_fault before.now self.now) result }
    {
        if self.clashes_with_any(before) {
            return Err(self.fault(SourceKind::Redeclared));
        }
        if self.is_init {
            return Err(self.fault(SourceKind::BadName));
        }
        Ok(())
    }
}

/// The first fault of the names of a package.
pub fn names_fault(names: &[Declared]) -> Result<(), PackageRefusal>
    ensures { spec.Tells (spec.names_fault [] names.now) result }
{
    for (number, name) in names.iter().enumerate() {
        name.is_free(&names[..number])?;
    }
    Ok(())
}
