//! Loading modules: `go.mod`, packages and their files, and the order in which imported packages come first.
#![tactic(auto)]

mod by_reader;
mod contents;
mod cover_names;
mod coverable;
mod cycle;
mod discovery;
mod go_mod;
mod graph;
mod home;
pub mod laws;
mod loaded;
mod names;
mod order;
mod paths;
mod reader;
mod refusal;
mod rows;
mod sorting;
mod source;
mod sources;
#[cfg(test)]
mod tests;
mod visit;

pub use by_reader::load_by;
pub use contents::{Found, Home, Source};
pub use cover_names::is_cover_name;
pub use coverable::{CoverReader, load_for_cover};
pub use discovery::discover;
pub use go_mod::{ModuleFault, module_path};
pub use graph::Graph;
pub use home::find_home;
pub use loaded::Loaded;
pub use names::is_source_name;
pub use paths::{is_known, is_own};
pub use reader::{ReadFault, ReadsSource};
pub use refusal::{LoadKind, LoadRefusal};
pub use sorting::{Arranged, arrange};
pub use sources::{SourceReader, load};
