//! The faults of files with their paths.
ghost use Rattle.cov_pods.specs.Faults.{Becomes, whole_fault, meta_fault, counter_fault};

use crate::fault::PodFault;
use cov_counter::CounterFault;
use cov_meta::MetaFault;
use cov_outside::{DataKind, Text, Which, WholeFault};

pub fn at(path: &Text, offset: u64, kind: DataKind) -> PodFault
    ensures { Becomes (PodFault.Data path.now offset kind) result }
{
    match path.clone() {
        Ok(path) => PodFault::Data { path, offset, kind },
        Err(_) => PodFault::NoMemory,
    }
}

pub fn missing(path: &Text) -> PodFault
    ensures { Becomes (PodFault.Missing path.now) result }
{
    match path.clone() {
        Ok(path) => PodFault::Missing { path },
        Err(_) => PodFault::NoMemory,
    }
}

pub fn of_whole(path: &Text, fault: WholeFault) -> PodFault
    ensures { Becomes (whole_fault path.now fault) result }
{
    match fault {
        WholeFault::Missing => missing(path),
        WholeFault::Limit => PodFault::Limit(Which::DataBytes),
        WholeFault::Read => PodFault::Read,
        WholeFault::NoMemory => PodFault::NoMemory,
    }
}

pub fn of_meta(path: &Text, fault: MetaFault) -> PodFault
    ensures { Becomes (meta_fault path.now fault) result }
{
    match fault {
        MetaFault::At { offset, kind } => at(path, offset, kind),
        MetaFault::Limit(which) => PodFault::Limit(which),
        MetaFault::NoMemory => PodFault::NoMemory,
    }
}

pub fn of_counter(path: &Text, fault: CounterFault) -> PodFault
    ensures { Becomes (counter_fault path.now fault) result }
{
    match fault {
        CounterFault::At { offset, kind } => at(path, offset, kind),
        CounterFault::Limit(which) => PodFault::Limit(which),
        CounterFault::Missing => missing(path),
        CounterFault::Read => PodFault::Read,
        CounterFault::NoMemory => PodFault::NoMemory,
    }
}
