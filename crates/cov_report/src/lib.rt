//! Reports of coverage tables.
#![tactic(auto)]

mod dump;
mod filter;
mod function_report;
mod function_sums;
mod number;
mod package_list;
mod percent_report;
mod share;
mod text_profile;

pub use dump::debugdump;
pub use filter::Filter;
pub use function_report::func_report;
pub use package_list::pkglist;
pub use percent_report::percent;
pub use text_profile::textfmt;

#[cfg(test)]
mod tests;
