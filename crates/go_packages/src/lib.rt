//! Checks packages of Go source: what their files declare, constants and variables, signatures, bodies, imports.
#![tactic(auto)]

mod bodies;
mod constants;
mod draft;
mod imports;
mod initial;
mod lower;
mod mentions;
mod outline;
mod packages;
mod pass;
mod sizes;
mod variables;

pub use draft::Globals;
pub use packages::{Built, check_package};
