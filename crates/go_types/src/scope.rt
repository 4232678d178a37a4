//! The meanings of names at a place, and what is noted of them.
ghost use Rattle.std.specs.Prelude.{◌≡◌, [], true, IfOk, Ok, slice_get, slice_set, option_map};
ghost use Rattle.std.specs.Option.{option_copied};
ghost use Rattle.go_types.specs.Checking.{Gives, Checks};
ghost use Rattle.go_types.specs.Names as spec;
ghost use Rattle.go_types.specs.Expressions.{noted};

use crate::fault::Refusal;
use crate::known::Known;
use crate::lookup::{group_method, is_exported, last_named, mutex_method, predeclared, standard};
use crate::names::{Binding, Imported, Marks, Meaning, Names};
use crate::operand::{Operand, Term};
use go_ast::{Name, NoMemory, SourceKind};
use go_meaning::{Expr, Variable};
use sqlite_items::{Items, at};

impl Meaning {
    pub fn copy(&self) -> Result<Meaning, NoMemory>
        ensures { IfOk result (λ m. m ≡ self.now) }
    {
        Ok(match self {
            Meaning::Constant(kind, constant) => Meaning::Constant(*kind, constant.copy()?),
            Meaning::Nil => Meaning::Nil,
            Meaning::Variable(variable, of) => Meaning::Variable(*variable, *of),
            Meaning::Mutex(mutex) => Meaning::Mutex(*mutex),
            Meaning::Group(group) => Meaning::Group(*group),
            Meaning::Type(of) => Meaning::Type(*of),
            Meaning::Callee(callee) => Meaning::Callee(*callee),
            Meaning::Shared(shared) => Meaning::Shared(*shared),
            Meaning::Import(import) => Meaning::Import(*import),
        })
    }
}

/// The meaning that was found for a name at an offset.
fn found_at(offset: u32, found: Option<Known>) -> Result<Meaning, Refusal>
    ensures { Gives (spec.found_at offset (option_map spec.known found)) result }
{
    match found {
        Some(known) => Ok(known.meaning()),
        None => Err(Refusal::at(offset, SourceKind::Undeclared)),
    }
}

impl Names {
    /// The names of a package.
    fn of_package(&self, number: usize) -> &[Binding]
        ensures { result.now ≡ spec.names_of self.now number }
    {
        match at(self.packages.as_slice(), number) {
            Some(bindings) => bindings.as_slice(),
            None => &[],
        }
    }

    /// What a name means.
    #[tactic(auto, unfolding(crate::specs::Names::meaning_of))]
    pub fn meaning_of(&self, name: &Name) -> Result<Meaning, Refusal>
        ensures { Gives (spec.meaning_of self.now name.now) result }
    {
        if let Some(meaning) = last_named(name.text.bytes(), self.locals.as_slice()) {
            return Ok(meaning.copy()?);
        }
        if let Some(meaning) = last_named(name.text.bytes(), self.own.as_slice()) {
            return Ok(meaning.copy()?);
        }
        found_at(name.at, predeclared(name.text.bytes()))
    }

    /// What a name of an imported package means.
    fn imported_name(&self, name: &Name, import: u64) -> Result<Meaning, Refusal>
        ensures { Gives (spec.imported_name self.now name.now (slice_get self.now.imports import)) result }
    {
        match at(self.imports.as_slice(), import as usize) {
            Some(Imported::Standard(library)) => {
                found_at(name.at, standard(*library, name.text.bytes()))
            }
            Some(Imported::Package(number)) => self.exported(name, *number as usize),
            None => Err(Refusal::at(name.at, SourceKind::Undeclared)),
        }
    }

    /// What a name means that a package exports.
    fn exported(&self, name: &Name, number: usize) -> Result<Meaning, Refusal>
        ensures { Gives (spec.exported name.now (spec.last_named name.now.text (spec.names_of self.now number))) result }
    {
        match last_named(name.text.bytes(), self.of_package(number)) {
            Some(meaning) if is_exported(name.text.bytes()) => Ok(meaning.copy()?),
            Some(_) => Err(Refusal::at(name.at, SourceKind::NotExported)),
            None => Err(Refusal::at(name.at, SourceKind::Undeclared)),
        }
    }

    /// What a name in a package, or a method, means.
    #[tactic(auto, unfolding(crate::specs::Names::member))]
    pub fn member(&self, marks: &mut Marks, first: &Name, name: &Name) -> Result<Meaning, Refusal>
        ensures { Checks (spec.member self.now first.now name.now marks.old) result marks.new }
    {
        match self.meaning_of(first)? {
            Meaning::Import(import) => {
                marks.use_import(import);
                self.imported_name(name, import)
            }
            Meaning::Mutex(mutex) => { found_at(name.at, mutex_method(mutex, name.text.bytes())) }
            Meaning::Group(group) => { found_at(name.at, group_method(group, name.text.bytes())) }
            _ => Err(Refusal::at(name.at, SourceKind::Undeclared)),
        }
    }
}

/// Notes the number in a list of flags.
fn mark(flags: &mut Items<bool>, number: u64)
    ensures { flags.new ≡ slice_set flags.old number true }
{
    let number = number as usize;
    if number < flags.len() {
        flags.set(number, true);
    }
}

impl Marks {
    /// Notes that a variable is read.
    pub fn read(&mut self, variable: Variable)
        ensures { spec.read variable self.old ≡ Ok (tt, self.new) }
    {
        if let Variable::Slot(slot) = variable {
            mark(&mut self.read, slot);
        }
    }

    /// Notes that an import is used.
    pub fn use_import(&mut self, import: u64)
        ensures { spec.use_import import self.old ≡ Ok (tt, self.new) }
    {
        mark(&mut self.used, import);
    }

    /// The operand that a name stands for.
    pub fn noted(&mut self, meaning: Meaning) -> Result<Operand, Refusal>
        ensures { Checks (noted meaning self.old) result self.new }
    {
        Ok(match meaning {
            Meaning::Constant(kind, constant) => Operand::Term(Term::Constant(kind, constant)),
            Meaning::Nil => Operand::Term(Term::Nil),
            Meaning::Variable(variable, of) => {
                self.read(variable);
                Operand::Term(Term::Value(of, Expr::Variable(variable)))
            }
            Meaning::Type(of) => Operand::Type(of),
            Meaning::Callee(callee) => Operand::Callee(callee),
            _ => Operand::Other,
        })
    }
}
