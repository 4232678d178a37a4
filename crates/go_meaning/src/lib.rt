//! Go programs and what they mean: the types of programs, configurations and events, and in `specs/` the definitions of
//! steps, histories, ends, entries, counters and the serial schedule.
#![tactic(auto)]

mod act;
mod config;
pub mod copies;
mod event;
mod expr;
mod item;
pub mod laws;
mod node;
mod program;
mod program_copies;
mod queue;
mod row;
mod stack;
mod statement_copies;
#[cfg(test)]
mod tests;
mod value;

pub use act::Act;
pub use config::{Call, Config, Deferred, Frame, Goroutine};
pub use event::{End, Event, Ready};
pub use expr::{Expr, Op, Relation, Target, Variable};
pub use item::Item;
pub use node::{Assignment, CaseClause, Comm, CommClause, Deferral, Node, NodeForm, Simple};
pub use program::{Function, Global, Program, ProgramPackage};
pub use program_copies::{copy_functions, copy_globals, copy_packages};
pub use queue::Queue;
pub use row::Row;
pub use stack::Stack;
pub use statement_copies::copy_node;
pub use value::{Channel, Value};
