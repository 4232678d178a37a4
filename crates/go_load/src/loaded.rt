//! A module, made of packages that were found.
ghost use Rattle.std.specs.Prelude.{◌≡◌, ◌++◌, None, Some, IfOk, OnOk, map, reverse, slice_index_or, slice_set};
ghost use Rattle.go_load.specs.Loading as spec;

use crate::contents::{Found, Source};
use cov_outside::Sequence;
use go_ast::{Module, NoMemory, Package, SourceFile, Text};
use sqlite_items::Items;
use std::alloc::Global;

/// A module, and the texts of its files in load order: by package, then by name.
#[derive(Debug, Drop)]
pub struct Loaded {
    pub module: Module,
    pub texts: Sequence<Sequence<u8>>,
}

/// Source files apart from their texts, the last first.
fn apart(
    alloc: Global,
    sources: Items<Source>,
) -> Result<(Vec<SourceFile>, Vec<Sequence<u8>>), NoMemory>
    ensures files { IfOk result (λ parts. reverse parts.0.items ≡ map spec.file_of sources) }
    ensures texts { IfOk result (λ parts. reverse parts.1.items ≡ map (λ s. s.text) sources) }
{
    let mut left = sources;
    let mut files = Vec::new(alloc);
    let mut texts = Vec::new(alloc);
    while let Some(source) = left.pop() {
        let Source { name, tree, text } = source;
        files.push(SourceFile { name, tree })?;
        texts.push(text)?;
    }
    Ok((files, texts))
}

/// Puts texts behind others, the last first.
fn put_texts(texts: &mut Sequence<Sequence<u8>>, held: Vec<Sequence<u8>>) -> Result<(), NoMemory>
    ensures { OnOk result (texts.new ≡ texts.old ++ reverse held.items) }
{
    let mut left = held;
    while let Some(text) = left.pop() {
        texts.push(text)?;
    }
    Ok(())
}

/// A package apart from the texts of its files, which are put behind others.
fn package_of(
    alloc: Global,
    found: Found,
    texts: &mut Sequence<Sequence<u8>>,
) -> Result<Package, NoMemory>
    ensures made { IfOk result (λ made. made ≡ spec.module_package found) }
    ensures texts { OnOk result (texts.new ≡ texts.old ++ spec.texts_of found) }
{
    let Found {
        path,
        dir,
        name,
        sources,
    } = found;
    let (mut files, held) = apart(alloc, sources)?;
    files.reverse();
    put_texts(texts, held)?;
    Ok(Package {
        path,
        dir,
        name,
        files: Items::from_vec(files),
    })
}

/// Packages that may be taken one by one.
fn slots_of(alloc: Global, founds: Vec<Found>) -> Result<Vec<Option<Found>>, NoMemory>
    ensures { IfOk result (λ slots. slots.items ≡ map (λ found. Some found) founds.items) }
{
    let mut slots = Vec::new(alloc);
    for found in founds {
        slots.push(Some(found))?;
    }
    Ok(slots)
}

/// Takes the package with a number, if it is there.
fn take_package(slots: &mut Vec<Option<Found>>, number: usize) -> Option<Found>
    ensures taken { result ≡ slice_index_or slots.old.items number None }
    ensures left { slots.new.items ≡ slice_set slots.old.items number None }
{
    if number >= slots.len() {
        return None;
    }
    slots[number].take()
}

/// The module of the packages with these numbers.
pub(crate) fn in_order(
    alloc: Global,
    path: Text,
    founds: Vec<Found>,
    order: &[usize],
) -> Result<Loaded, NoMemory>
    requires { spec.ComeOnce order.now }
    ensures { IfOk result (λ loaded. loaded ≡ spec.loaded_of path (spec.with_numbers founds.items order.now)) }
{
    let mut slots = slots_of(alloc, founds)?;
    let mut packages = Vec::new(alloc);
    let mut texts = Sequence::new(alloc);
    for number in order {
        if let Some(found) = take_package(&mut slots, *number) {
            packages.push(package_of(alloc, found, &mut texts)?)?;
        }
    }
    Ok(Loaded {
        module: Module {
            path,
            packages: Items::from_vec(packages),
        },
        texts,
    })
}
