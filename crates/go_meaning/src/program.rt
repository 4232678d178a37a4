//! Programs.
ghost use Rattle.std.specs.Prelude.{◌≡◌};
ghost use Rattle.go_meaning.specs.WellFormed.{IsProgram};

use crate::node::Node;
use crate::value::Value;
use go_ast::Text;
use sqlite_items::Items;
use std::marker::Model;

/// A package, in load order. Functions stand in the order of their packages.
#[derive(Debug, Drop)]
pub struct ProgramPackage {
    pub path: Text,
    pub name: Text,
    /// How many of the program's functions are its.
    pub functions: u64,
}

/// A function. Its parameters are the first slots of its frames.
#[derive(Debug, Drop)]
pub struct Function {
    pub name: Text,
    pub params: u64,
    pub results: u64,
    pub slots: u64,
    /// The list of its body.
    pub body: u64,
}

/// A package variable as a run begins.
#[derive(Debug, Drop)]
pub enum Global {
    /// The zero value where none is given.
    Value(Value),
    Make { zero: Value, capacity: u64 },
    Mutex,
    Group,
}

/// A program: a checked module, with its lists of statements numbered from 0.
///
/// A package variable is numbered among those that are no mutex and no wait group, a mutex among the mutexes, and a wait
/// group among the wait groups. Lists are numbered in the order in which they are cut into units.
#[derive(Debug, Drop)]
pub struct Program {
    packages: Items<ProgramPackage>,
    functions: Items<Function>,
    lists: Items<Items<Node>>,
    globals: Items<Global>,
    units: u32,
    main: u64,
}

impl Model for Program {
    ghost use Rattle.go_meaning.specs.Programs.{Parts};
    ghost use Rattle.go_meaning.specs.WellFormed.{IsProgram};
    ghost use Rattle.go_meaning.specs.contracts.expr.Expr as e;
    ghost use Rattle.std.specs.Coded.{codes};

    ghost Value = { Parts };

    ghost coded = { Prim.hlevel (codes, e.the_row.coded) };

    ghost view = { λ p. record { packages = p.packages; functions = p.functions; lists = p.lists; globals = p.globals; units = p.units; main = p.main } };

    ghost invariant = { λ p. IsProgram (record { packages = p.packages; functions = p.functions; lists = p.lists; globals = p.globals; units = p.units; main = p.main }) };
}

impl Program {
    /// The program of these parts.
    pub fn new(
        packages: Items<ProgramPackage>,
        functions: Items<Function>,
        lists: Items<Items<Node>>,
        globals: Items<Global>,
        units: u32,
        main: u64,
    ) -> Program
        requires { IsProgram (record { packages = packages; functions = functions; lists = lists; globals = globals; units = units; main = main }) }
        ensures { result ≡ record { packages = packages; functions = functions; lists = lists; globals = globals; units = units; main = main } }
    {
        Program {
            packages,
            functions,
            lists,
            globals,
            units,
            main,
        }
    }

    pub fn packages(&self) -> &[ProgramPackage]
        ensures { result.now ≡ self.now.packages }
    {
        self.packages.as_slice()
    }

    pub fn functions(&self) -> &[Function]
        ensures { result.now ≡ self.now.functions }
    {
        self.functions.as_slice()
    }

    /// The lists of statements by their numbers.
    pub fn lists(&self) -> &[Items<Node>]
        ensures { result.now ≡ self.now.lists }
    {
        self.lists.as_slice()
    }

    pub fn globals(&self) -> &[Global]
        ensures { result.now ≡ self.now.globals }
    {
        self.globals.as_slice()
    }

    /// How many units there are, where the program has counters for them, or 0.
    pub fn units(&self) -> u32
        ensures { result ≡ self.now.units }
    {
        self.units
    }

    /// The number of the function `main` of the root.
    pub fn main(&self) -> u64
        ensures { result ≡ self.now.main }
    {
        self.main
    }

    /// What holds of every program.
    pub fn known(&self)
        ensures { IsProgram self.now }
    {
        let _lists = &self.lists;
    }
}
