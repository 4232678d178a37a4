//! The parts of programs.
use go_meaning::{Function, Global, Node, ProgramPackage};
use sqlite_items::Items;

/// The parts of a program.
#[derive(Drop)]
pub struct ProgramParts {
    pub packages: Items<ProgramPackage>,
    pub functions: Items<Function>,
    pub lists: Items<Items<Node>>,
    pub globals: Items<Global>,
    pub units: u32,
    pub main: u64,
}
