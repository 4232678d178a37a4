//! Scopes, and what is declared in them.
ghost use Rattle.std.specs.Prelude.{◌≡◌, Ok, [], map, replicate, take, length, OnOk};
ghost use Rattle.std.specs.Option.{option_copied};
ghost use Rattle.go_types.specs.Checking.{Gives};
ghost use Rattle.go_types.specs.Names.{last_named};
ghost use Rattle.go_types.specs.Walking as walking;
ghost use Rattle.go_types.specs.Walking.{Walks};
ghost use Rattle.go_types.specs.Scopes as spec;

use crate::fault::Refusal;
use crate::lookup::last_named;
use crate::names::{Binding, Meaning};
use crate::types::ValueType;
use crate::walk::{Place, Walk};
use go_ast::{Name, NoMemory, SourceKind};
use go_meaning::{Node, Target, Variable};
use sqlite_items::Items;
use std::alloc::Global;

/// Whether a name is `_`, which declares nothing.
pub fn is_blank(name: &[u8]) -> bool
    ensures { result ≡ spec.is_blank name.now }
{
    name == b"_".as_slice()
}

/// Where a scope was opened.
#[derive(Clone, Copy)]
pub struct Scope {
    locals: usize,
    around: u64,
}

impl Walk {
    /// Opens a scope.
    pub fn open(&mut self) -> Scope
        ensures scope { result ≡ record { locals = length self.old.names.locals; around = self.old.scope } }
        ensures opened { self.new ≡ walking.opened self.old }
    {
        let scope = Scope {
            locals: self.names.locals.len(),
            around: self.scope,
        };
        self.scope = self.names.locals.len() as u64;
        scope
    }

    /// Closes a scope: what was declared in it isn't known behind it.
    pub fn close(&mut self, scope: Scope)
        ensures { self.new ≡ record (walking.with_locals self.old (take scope.locals self.old.names.locals)) { scope = scope.around } }
    {
        self.names.locals.truncate(scope.locals);
        self.scope = scope.around;
    }

    /// What a name was declared as in the innermost scope.
    pub fn in_scope(&self, name: &[u8]) -> Option<&Meaning>
        ensures { option_copied result ≡ walking.in_scope self.now name.now }
    {
        let locals = self.names.locals.as_slice();
        match locals.get(self.scope as usize..) {
            Some(inner) => last_named(name, inner),
            None => None,
        }
    }

    /// Declares a name.
    pub fn bind(&mut self, name: &Name, meaning: Meaning) -> Result<(), Refusal>
        ensures { Walks (walking.bind name.now meaning self.old) result self.new }
    {
        if self.in_scope(name.text.bytes()).is_some() {
            return Err(Refusal::at(name.at, SourceKind::Redeclared));
        }
        let name = name.text.clone()?;
        self.names.locals.push(Binding { name, meaning })?;
        Ok(())
    }
}
