//! Meta files of coverage data: what they say, read byte by byte.
#![tactic(auto)]

mod allowance;
mod blob;
mod entries;
mod fault;
mod function;
mod hash;
mod header;
pub mod laws;
mod meta;
mod offsets;
mod read;
mod record;
mod write;
mod written_blob;
pub mod written_laws;

pub use fault::MetaFault;
pub use meta::{Meta, MetaFile, MetaFunction, MetaPackage, MetaUnit, Place2};
pub use read::read_meta;
pub use write::{Written, write_meta};
