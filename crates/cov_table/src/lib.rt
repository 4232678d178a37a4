//! Coverage tables: a count for each unit.
#![tactic(auto)]

mod gather;
mod group;
mod keep;
mod laws;
mod order;
mod package_order;
mod packages;
mod pod_out;
mod refusal;
mod renumber;
mod row;
mod settle;
mod table;
mod units;

pub use laws::{counts_and_packages_by_key, operations_by_key, pod_is_table};
pub use packages::{Package, Packages};
pub use pod_out::PodOut;
pub use refusal::TableRefusal;
pub use table::Table;
pub use units::{Unit, Units};

#[cfg(test)]
mod tests;
