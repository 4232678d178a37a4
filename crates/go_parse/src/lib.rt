//! Trees of Go sources.
//!
//! `parse` finds the tree that the tokens of a text spell by the grammar of `go_grammar`, or the first fault. A function reads
//! each rule, from left to right, and leaves the cursor behind what it read, or at the fault. `go_reading` defines what each of
//! them answers as a function of the tokens, and has the law that these definitions find the one tree or the first fault; here
//! the code is proved to compute them. A reader is told how many levels there may be below it, and tells how many there are,
//! so nothing recurses deeper than the limit; lists are read in loops.
#![tactic(auto)]

mod bounds;
mod clause;
mod comm;
mod cursor;
mod decl;
mod ends;
mod expr;
mod fault;
mod file;
mod head;
mod kind;
mod leaf;
mod literal;
mod names;
mod node;
mod opening;
mod params;
mod plain;
mod qualified;
mod source;
mod spec;
mod stmt;
mod stmt_node;
mod targets;
mod types;
mod words;

pub use fault::{SourceFault, WhichSource};
pub use source::{parse, parse_tokens};
