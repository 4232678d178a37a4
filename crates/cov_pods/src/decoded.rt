//! A pod that was read.
use crate::pod::Pod;
use cov_counter::Head;
use cov_meta::MetaFile;
use cov_outside::Sequence;
use std::marker::Model;

/// A pod, what its meta file says, and how often each unit was counted: a count for each unit of the file,
/// and a head for each counter file of the pod.
#[derive(Debug, Drop)]
pub struct DecodedPod {
    pub pod: Pod,
    /// The bytes of the meta file.
    pub bytes: Sequence<u8>,
    pub file: MetaFile,
    /// The count of each unit of `file`, by package and function.
    pub counts: Sequence<Sequence<Sequence<u32>>>,
    /// The head of each counter file.
    pub heads: Sequence<Head>,
}

impl Model for DecodedPod {
    ghost use Rattle.cov_pods.specs.CountedPod.{CountedPod, IsWhole};

    ghost Value = { CountedPod };

    ghost view = { λ d. record { pod = d.pod; bytes = d.bytes; file = d.file; counts = d.counts; heads = d.heads } };

    ghost invariant = { λ d. IsWhole d.pod d.file d.counts d.heads };
}
