//! The pass over the constants and variables of a package.
ghost use Rattle.std.specs.Prelude.{◌≡◌, IfOk};
ghost use Rattle.std.specs.List.{list_any};
ghost use Rattle.go_packages.specs.Placing.{Makes};
ghost use Rattle.go_packages.specs.Variables as spec;

use crate::constants::{ConstAt, Sources, refusal_in, rest_of};
use crate::draft::{Draft, next};
use crate::lower::is_blank;
use crate::mentions::{add_all_names, add_names_if};
use go_ast::{Decl, Name, NoMemory, SourceFile, VarSpec};
use go_types::PackageRefusal;
use sqlite_items::Items;
use std::alloc::Global;

fn names_of_var(alloc: Global, one: &VarSpec) -> Result<Items<Name>, NoMemory>
    ensures { IfOk result (λ names. names ≡ spec.names_of_var one.now) }
{
    let mut all = Items::new(alloc);
    add_names_if(&mut all, &one.kind)?;
    add_all_names(&mut all, one.values.as_slice())?;
    Ok(all)
}

fn is_among(names: &[Name], place: &ConstAt) -> bool
    ensures { result ≡ spec.is_among names.now place.now }
{
    names
        .iter()
        .any(|name| name.text.bytes() == place.name.bytes())
}

fn is_named(names: &[Name], place: &ConstAt) -> bool
    ensures { result ≡ spec.is_named names.now place.now }
{
    !is_blank(place.name.bytes()) && is_among(names, place)
}

/// The number behind the last constant that is named.
fn behind(names: &[Name], from: u64, consts: &[ConstAt]) -> Result<u64, NoMemory>
    ensures { IfOk result (λ n. n ≡ spec.behind names.now from from consts.now) }
{
    let mut last = from;
    let mut number = from;
    for place in consts {
        number = next(number)?;
        if is_named(names, place) {
            last = number;
        }
    }
    Ok(last)
}

impl Draft {
    /// How many constants come up to the last that is named, or are known.
    fn needed(&self, sources: &Sources, names: &[Name]) -> Result<u64, NoMemory>
        ensures { IfOk result (λ n. n ≡ spec.needed sources.now names.now self.now) }
    {
        let left = rest_of(sources.consts.as_slice(), self.known);
        behind(names, self.known, left)
    }

    #[tactic(auto, unfolding(crate::specs::Variables::var_at))]
    fn var_at(
        &mut self,
        alloc: Global,
        files: &[SourceFile],
        sources: &Sources,
        file: u64,
        one: &VarSpec,
    ) -> Result<(), PackageRefusal>
        ensures { Makes (spec.var_at files.now sources.now file one.now self.old) result self.new }
    {
        let names = names_of_var(alloc, one)?;
        let count = self.needed(sources, names.as_slice())?;
        self.know_first(alloc, files, sources, count)?;
        self.enter(sources, file)?;
        match self.var_spec(alloc, one) {
            Ok(()) => Ok(()),
            Err(refusal) => Err(refusal_in(file, refusal)),
        }
    }

    fn vars_at(
        &mut self,
        alloc: Global,
        files: &[SourceFile],
        sources: &Sources,
        file: u64,
        specs: &[VarSpec],
    ) -> Result<(), PackageRefusal>
        ensures { Makes (spec.vars_at files.now sources.now file specs.now self.old) result self.new }
    {
        for one in specs {
            self.var_at(alloc, files, sources, file, one)?;
        }
        Ok(())
    }

    fn pass_consts(
        &mut self,
        alloc: Global,
        files: &[SourceFile],
        sources: &Sources,
        count: usize,
    ) -> Result<(), PackageRefusal>
        ensures { Makes (spec.pass_consts files.now sources.now count self.old) result self.new }
    {
        let Some(passed) = self.passed.checked_add(count as u64) else {
            return Err(PackageRefusal::NoMemory);
        };
        self.passed = passed;
        self.know_first(alloc, files, sources, passed)
    }

    fn pass_decl(
        &mut self,
        alloc: Global,
        files: &[SourceFile],
        sources: &Sources,
        file: u64,
        decl: &Decl,
    ) -> Result<(), PackageRefusal>
        ensures { Makes (spec.pass_decl files.now sources.now file decl.now self.old) result self.new }
    {
        match decl {
            Decl::Const(specs) => self.pass_consts(alloc, files, sources, specs.len()),
            Decl::Var(specs) => self.vars_at(alloc, files, sources, file, specs.as_slice()),
            Decl::Func(_) => Ok(()),
        }
    }

    fn pass_decls(
        &mut self,
        alloc: Global,
        files: &[SourceFile],
        sources: &Sources,
        file: u64,
        decls: &[Decl],
    ) -> Result<(), PackageRefusal>
        ensures { Makes (spec.pass_decls files.now sources.now file decls.now self.old) result self.new }
    {
        for decl in decls {
            self.pass_decl(alloc, files, sources, file, decl)?;
        }
        Ok(())
    }

    /// Checks the constants and variables of a package.
    pub fn pass(
        &mut self,
        alloc: Global,
        files: &[SourceFile],
        sources: &Sources,
    ) -> Result<(), PackageRefusal>
        ensures { Makes (spec.pass_from files.now sources.now 0 files.now self.old) result self.new }
    {
        for (number, file) in files.iter().enumerate() {
            let decls = file.tree.decls.as_slice();
            self.pass_decls(alloc, files, sources, number as u64, decls)?;
        }
        Ok(())
    }
}
