//! Checks modules of Go source.
#![tactic(auto)]

mod module;
mod parts;
mod refusal;

pub use module::{check, parts_of};
pub use parts::ProgramParts;
pub use refusal::CheckRefusal;
