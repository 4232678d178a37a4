//! Configurations.
use crate::event::End;
use crate::item::Item;
use crate::row::Row;
use crate::stack::Stack;
use crate::value::{Channel, Value};
use go_ast::Text;
use sqlite_items::Items;

/// A call of the function with a number.
#[derive(Debug, Drop)]
pub struct Call {
    pub function: u64,
    pub args: Row<Value>,
}

/// A deferred call. A mutex or a wait group is its number.
#[derive(Debug, Drop)]
pub enum Deferred {
    Call(Call),
    Done(u64),
    Unlock(u64),
    Close(Value),
    Println(Row<Value>),
}

/// A frame. The top of each stack comes first.
#[derive(Debug, Drop)]
pub struct Frame {
    /// The parameters, then the other variables; nothing where none was assigned yet.
    pub slots: Items<Option<Value>>,
    pub stack: Stack<Value>,
    pub deferred: Stack<Deferred>,
    pub control: Stack<Item>,
    /// Whether its results are dropped.
    pub drops: bool,
}

/// A goroutine.
#[derive(Debug, Drop)]
pub struct Goroutine {
    /// The call with which it begins, before it has.
    pub begin: Option<Call>,
    /// The running frame first. Where it has begun and there is none, it is over.
    pub frames: Stack<Frame>,
}

/// The state of a run.
#[derive(Debug, Drop)]
pub struct Config {
    /// The package variables, without mutexes and wait groups.
    pub globals: Items<Value>,
    pub channels: Row<Channel>,
    /// Which mutexes are locked.
    pub mutexes: Items<bool>,
    /// The numbers of the wait groups.
    pub groups: Items<u32>,
    pub output: Text,
    /// Goroutine 1 first.
    pub goroutines: Row<Goroutine>,
    pub end: Option<End>,
}
