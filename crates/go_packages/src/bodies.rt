//! The bodies of a package's functions.
ghost use Rattle.std.specs.Prelude.{◌≡◌, OnOk};
ghost use Rattle.go_packages.specs.Placing.{Makes, Turns};
ghost use Rattle.go_packages.specs.Bodies as spec;

use crate::constants::refusal_in;
use crate::imports::{FileImport, enter};
use go_ast::{Decl, Func, NoMemory, SourceFile};
use go_bodies::function;
use go_meaning::Function;
use go_types::{PackageRefusal, Refusal, Walk};
use sqlite_items::Items;
use std::alloc::Global;

/// The functions of a program so far, and the state of checking.
#[derive(Drop)]
pub struct Bodies {
    pub walk: Walk,
    pub functions: Items<Function>,
}

impl Bodies {
    #[tactic(auto, unfolding(crate::specs::Bodies::with_body))]
    fn add_body(&mut self, alloc: Global, func: &Func) -> Result<(), Refusal>
        ensures { Turns (spec.with_body func.now self.old) result self.new }
    {
        let number = self.functions.len() as u64;
        let one = function(alloc, &mut self.walk, func, number)?;
        self.functions.push(one)?;
        Ok(())
    }

    fn add_decl(&mut self, alloc: Global, file: u64, decl: &Decl) -> Result<(), PackageRefusal>
        ensures { Makes (spec.with_decl file decl.now self.old) result self.new }
    {
        match decl {
            Decl::Func(func) => match self.add_body(alloc, func) {
                Ok(()) => Ok(()),
                Err(refusal) => Err(refusal_in(file, refusal)),
            },
            _ => Ok(()),
        }
    }

    fn add_decls(&mut self, alloc: Global, file: u64, decls: &[Decl]) -> Result<(), PackageRefusal>
        ensures { Makes (spec.with_decls file decls.now self.old) result self.new }
    {
        for decl in decls {
            self.add_decl(alloc, file, decl)?;
        }
        Ok(())
    }

    fn enter(&mut self, imports: &[FileImport], file: u64) -> Result<(), NoMemory>
        ensures { OnOk result (self.new ≡ spec.enters imports.now file self.old) }
    {
        enter(&mut self.walk.names, imports, file)
    }

    /// Counts the counters of a file.
    fn count(&mut self, counts: u32) -> Result<(), NoMemory>
        ensures { OnOk result (self.new ≡ spec.counted counts self.old) }
    {
        match self.walk.first_unit.checked_add(counts) {
            Some(unit) => {
                self.walk.first_unit = unit;
                Ok(())
            }
            None => Err(std::alloc::AllocError),
        }
    }

    /// Checks the bodies of the files of a package.
    pub fn add_files(
        &mut self,
        alloc: Global,
        imports: &[FileImport],
        files: &[SourceFile],
    ) -> Result<(), PackageRefusal>
        ensures { Makes (spec.with_files imports.now 0 files.now self.old) result self.new }
    {
        for (number, file) in files.iter().enumerate() {
            self.enter(imports, number as u64)?;
            self.add_decls(alloc, number as u64, file.tree.decls.as_slice())?;
            self.count(file.tree.counts)?;
        }
        Ok(())
    }
}
