//! Pods: meta files with their counter files, and what they count.
#![tactic(auto)]

mod counter_file;
mod counts;
mod decode;
mod decoded;
mod fault;
mod group;
mod names;
mod path_fault;
mod pod;

pub use decode::decode_pod;
pub use decoded::DecodedPod;
pub use fault::PodFault;
pub use group::collect;
pub use names::{counter_hash, meta_hash};
pub use pod::{DirNames, Pod};

#[cfg(test)]
mod decode_tests;
