//! What names mean.
use crate::constant::Constant;
use crate::kinds::OperandKind;
use crate::lifo::Lifo;
use crate::types::ValueType;
use go_ast::Text;
use go_meaning::Variable;
use sqlite_items::Items;

/// What can be called besides a type.
#[derive(Clone, Copy, PartialEq, Eq, Debug)]
pub enum Callee {
    /// The function with that number.
    Function(u64),
    Len,
    Cap,
    Make,
    Close,
    Panic,
    /// `fmt.Println`
    Println,
    /// `os.Exit`
    Exit,
    /// `strconv.Itoa`
    Itoa,
    /// `Lock` of the mutex with that number.
    Lock(u64),
    Unlock(u64),
    /// `Add` of the wait group with that number.
    Add(u64),
    Done(u64),
    Wait(u64),
}

/// A type that package variables alone have, and no expression.
#[derive(Clone, Copy, PartialEq, Eq, Debug)]
pub enum Shared {
    /// `sync.Mutex`
    Mutex,
    /// `sync.WaitGroup`
    Group,
}

/// What a name means.
#[derive(Debug, Drop)]
pub enum Meaning {
    Constant(OperandKind, Constant),
    Nil,
    Variable(Variable, ValueType),
    /// The mutex with that number.
    Mutex(u64),
    /// The wait group with that number.
    Group(u64),
    Type(ValueType),
    Callee(Callee),
    Shared(Shared),
    /// The import of the file with that number.
    Import(u64),
}

/// A name and what it means.
#[derive(Debug, Drop)]
pub struct Binding {
    pub name: Text,
    pub meaning: Meaning,
}

/// A package of Go's standard library.
#[derive(Clone, Copy, PartialEq, Eq, Debug)]
pub enum Standard {
    Fmt,
    Os,
    Strconv,
    Sync,
}

/// What an import imports: a package of the standard library, or the package of the module with that number.
#[derive(Clone, Copy, PartialEq, Eq, Debug)]
pub enum Imported {
    Standard(Standard),
    Package(u64),
}

/// The types of a function.
#[derive(Debug, Drop)]
pub struct Signature {
    pub params: Items<ValueType>,
    pub results: Items<ValueType>,
}

/// What the names at a place mean.
#[derive(Debug, Drop)]
pub struct Names {
    /// The names of each package before the present one.
    pub packages: Items<Lifo<Binding>>,
    /// The names of the present package.
    pub own: Lifo<Binding>,
    /// The functions by their numbers.
    pub signatures: Items<Signature>,
    /// The imports of the file by their numbers.
    pub imports: Items<Imported>,
    /// The names of the imports and of the parameters, variables and constants around the place, the innermost last.
    pub locals: Lifo<Binding>,
}

/// Which variables of a function were read and which imports of a file were used, by their numbers.
#[derive(Debug, Drop)]
pub struct Marks {
    pub read: Items<bool>,
    pub used: Items<bool>,
}
