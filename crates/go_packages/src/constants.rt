//! The constants of a package.
ghost use Rattle.std.specs.Prelude.{◌≡◌, ◌++◌, take, drop, is_some, IfOk, OnOk};
ghost use Rattle.std.specs.List.{list_any};
ghost use Rattle.std.specs.Option.{option_copied};
ghost use Rattle.go_types.specs.Checking.{Gives};
ghost use Rattle.go_packages.specs.Placing.{Makes, Turns, refusal_in};
ghost use Rattle.go_packages.specs.Constants as spec;

use crate::draft::{Draft, next};
use crate::imports::{FileImport, enter};
use crate::lower::{const_value, is_predeclared};
use crate::mentions::{add_names, add_names_if};
use crate::outline::add_name;
use go_ast::{ConstSpec, Decl, Name, NoMemory, SourceFile, SourceKind, Text};
use go_types::{Fault, Meaning, PackageRefusal, Placed, Refusal};
use sqlite_items::{Items, at as item};
use std::alloc::Global;

/// A constant of a package: its name, and the numbers of its file, its declaration there, and its part of that.
#[derive(Drop)]
pub struct ConstAt {
    pub name: Text,
    pub file: u64,
    pub decl: u64,
    pub index: u64,
}

/// A constant with a number that hides a predeclared name.
#[derive(Drop)]
pub struct Hiding {
    pub name: Text,
    pub number: u64,
}

/// What the names of a package are found by.
#[derive(Drop)]
pub struct Sources {
    pub imports: Items<FileImport>,
    pub consts: Items<ConstAt>,
    pub hiding: Items<Hiding>,
}

fn add_const_specs(
    all: &mut Items<ConstAt>,
    file: u64,
    decl: u64,
    specs: &[ConstSpec],
) -> Result<(), NoMemory>
    ensures { OnOk result (all.new ≡ all.old ++ spec.consts_of file decl 0 specs.now) }
{
    for (index, one) in specs.iter().enumerate() {
        all.push(ConstAt {
            name: one.name.text.clone()?,
            file,
            decl,
            index: index as u64,
        })?;
    }
    Ok(())
}

fn add_const_decls(all: &mut Items<ConstAt>, file: u64, decls: &[Decl]) -> Result<(), NoMemory>
    ensures { OnOk result (all.new ≡ all.old ++ spec.consts_in file 0 decls.now) }
{
    for (number, decl) in decls.iter().enumerate() {
        if let Decl::Const(specs) = decl {
            add_const_specs(all, file, number as u64, specs.as_slice())?;
        }
    }
    Ok(())
}

/// The constants of a package by file and offset.
pub fn consts_of(alloc: Global, files: &[SourceFile]) -> Result<Items<ConstAt>, NoMemory>
    ensures { IfOk result (λ all. all ≡ spec.consts_from 0 files.now) }
{
    let mut all = Items::new(alloc);
    for (number, file) in files.iter().enumerate() {
        add_const_decls(&mut all, number as u64, file.tree.decls.as_slice())?;
    }
    Ok(all)
}

/// The constants that hide predeclared names.
pub fn hiding_of(alloc: Global, consts: &[ConstAt]) -> Result<Items<Hiding>, NoMemory>
    ensures { IfOk result (λ all. all ≡ spec.hiding_from 0 consts.now) }
{
    let mut all = Items::new(alloc);
    for (number, one) in consts.iter().enumerate() {
        if is_predeclared(one.name.bytes()) {
            all.push(Hiding {
                name: one.name.clone()?,
                number: number as u64,
            })?;
        }
    }
    Ok(all)
}

/// The constant at a place.
fn const_at<'a>(files: &'a [SourceFile], place: &ConstAt) -> Option<&'a ConstSpec>
    ensures { option_copied result ≡ spec.const_at files.entry.now place.now }
{
    let file = item(files, place.file as usize)?;
    let decl = item(file.tree.decls.as_slice(), place.decl as usize)?;
    match decl {
        Decl::Const(specs) => item(specs.as_slice(), place.index as usize),
        _ => None,
    }
}

impl Hiding {
    fn hides(&self, known: u64, name: &Name) -> bool
        ensures { result ≡ spec.hides known name.now self.now }
    {
        self.name.bytes() == name.text.bytes() && !(self.number < known)
    }
}

fn is_hidden(known: u64, hiding: &[Hiding], name: &Name) -> bool
    ensures { result ≡ list_any (spec.hides known name.now) hiding.now }
{
    hiding.iter().any(|one| one.hides(known, name))
}

fn none_hidden(known: u64, hiding: &[Hiding], names: &[Name]) -> Result<(), Refusal>
    ensures { Gives (spec.none_hidden known hiding.now names.now) result }
{
    for name in names {
        if is_hidden(known, hiding, name) {
            return Err(Refusal::at(name.at, SourceKind::Undeclared));
        }
    }
    Ok(())
}

fn names_of_const(alloc: Global, one: &ConstSpec) -> Result<Items<Name>, NoMemory>
    ensures { IfOk result (λ names. names ≡ spec.names_of_const one.now) }
{
    let mut all = Items::new(alloc);
    add_names_if(&mut all, &one.kind)?;
    add_names(&mut all, &one.value)?;
    Ok(all)
}

/// A refusal in the file with a number.
pub fn refusal_in(file: u64, refusal: Refusal) -> PackageRefusal
    ensures { result ≡ refusal_in file refusal }
{
    match refusal {
        Refusal::At(fault) => PackageRefusal::At(Placed { file, fault }),
        Refusal::NoMemory => PackageRefusal::NoMemory,
    }
}

impl Draft {
    /// Enters a file.
    pub fn enter(&mut self, sources: &Sources, file: u64) -> Result<(), NoMemory>
        ensures { OnOk result (self.new ≡ spec.enters sources.now file self.old) }
    {
        enter(&mut self.names, sources.imports.as_slice(), file)
    }

    #[tactic(auto, unfolding(crate::specs::Constants::const_spec))]
    fn const_spec(
        &mut self,
        alloc: Global,
        hiding: &[Hiding],
        one: &ConstSpec,
    ) -> Result<(), Refusal>
        ensures { Turns (spec.const_spec hiding.now one.now self.old) result self.new }
    {
        let names = names_of_const(alloc, one)?;
        none_hidden(self.known, hiding, names.as_slice())?;
        let meaning = const_value(alloc, &self.names, &mut self.marks, one)?;
        add_name(&mut self.names.own, &one.name, meaning)?;
        self.known = next(self.known)?;
        Ok(())
    }

    fn know(
        &mut self,
        alloc: Global,
        files: &[SourceFile],
        sources: &Sources,
        place: &ConstAt,
    ) -> Result<(), PackageRefusal>
        ensures { Makes (spec.know files.now sources.now place.now self.old) result self.new }
    {
        let Some(one) = const_at(files, place) else {
            return Ok(());
        };
        self.enter(sources, place.file)?;
        match self.const_spec(alloc, sources.hiding.as_slice(), one) {
            Ok(()) => Ok(()),
            Err(refusal) => Err(refusal_in(place.file, refusal)),
        }
    }

    fn know_each(
        &mut self,
        alloc: Global,
        files: &[SourceFile],
        sources: &Sources,
        places: &[ConstAt],
    ) -> Result<(), PackageRefusal>
        ensures { Makes (spec.know_each files.now sources.now places.now self.old) result self.new }
    {
        for place in places {
            self.know(alloc, files, sources, place)?;
        }
        Ok(())
    }

    /// Checks the first constants, so many, where that isn't done.
    #[tactic(auto, unfolding(crate::specs::Constants::know_first))]
    pub fn know_first(
        &mut self,
        alloc: Global,
        files: &[SourceFile],
        sources: &Sources,
        count: u64,
    ) -> Result<(), PackageRefusal>
        ensures { Makes (spec.know_first files.now sources.now count self.old) result self.new }
    {
        let places = rest_of(first_of(sources.consts.as_slice(), count), self.known);
        self.know_each(alloc, files, sources, places)
    }
}

/// The first constants, so many.
#[tactic(auto, using(std::proofs::lemmas::List::take_all))]
fn first_of(consts: &[ConstAt], count: u64) -> &[ConstAt]
    ensures { result.now ≡ take count consts.entry.now }
{
    let count = count as usize;
    if count < consts.len() {
        &consts[..count]
    } else {
        consts
    }
}

/// The constants from a number on.
#[tactic(auto, using(std::proofs::lemmas::List::drop_all))]
pub fn rest_of(consts: &[ConstAt], from: u64) -> &[ConstAt]
    ensures { result.now ≡ drop from consts.entry.now }
{
    let from = from as usize;
    if from < consts.len() {
        &consts[from..]
    } else {
        &[]
    }
}
