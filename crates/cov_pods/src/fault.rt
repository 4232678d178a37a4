//! Why a pod can't be decoded.
ghost use Rattle.std.specs.Prelude.{◌≡◌};
ghost use Rattle.cov_pods.specs.declared.fault.PodFault.TheVariants as pod_fault;

use cov_outside::{DataKind, Mode, Text, Which};
use std::alloc::{AllocError, AllocFailed};

/// The first fault of a pod.
#[derive(Debug, Drop)]
pub enum PodFault {
    /// What is wrong with a file, and at which byte, from 0.
    Data {
        path: Text,
        offset: u64,
        kind: DataKind,
    },
    /// The meta file is good, and its mode, given here, isn't the wanted one.
    Mode(Mode),
    Limit(Which),
    Missing {
        path: Text,
    },
    Read,
    NoMemory,
}

impl From<AllocError> for PodFault {
    ghost from_gives = { λ _ e. e ≡ pod_fault.NoMemory };

    fn from(_e: AllocError) -> PodFault {
        PodFault::NoMemory
    }
}

impl<T: Drop> From<AllocFailed<T>> for PodFault {
    ghost from_gives = { λ _ e. e ≡ pod_fault.NoMemory };

    fn from(_e: AllocFailed<T>) -> PodFault {
        PodFault::NoMemory
    }
}
