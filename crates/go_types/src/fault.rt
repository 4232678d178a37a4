//! Faults of checking.
ghost use Rattle.std.specs.Prelude.{◌≡◌};
ghost use Rattle.go_types.specs.Checking.{const_kind};
ghost use Rattle.go_types.specs.declared.fault.PackageRefusal.TheVariants as packages;
ghost use Rattle.go_types.specs.declared.fault.Refusal.TheVariants as refusal;

use go_ast::{NoMemory, SourceKind};
use go_value::ConstFault;
use std::alloc::AllocFailed;

/// A broken rule, and the offset of what breaks it.
#[derive(Clone, Copy, Debug, PartialEq, Eq)]
pub struct Fault {
    pub offset: u32,
    pub kind: SourceKind,
}

/// Why a part of a file isn't accepted.
#[derive(Debug, Drop)]
pub enum Refusal {
    At(Fault),
    NoMemory,
}

impl Refusal {
    pub fn at(offset: u32, kind: SourceKind) -> Refusal
        ensures { result ≡ refusal.At (record { offset = offset; kind = kind }) }
    {
        Refusal::At(Fault { offset, kind })
    }
}

impl From<NoMemory> for Refusal {
    ghost from_gives = { λ _ e. e ≡ refusal.NoMemory };

    fn from(_e: NoMemory) -> Refusal {
        Refusal::NoMemory
    }
}

impl<T: Drop> From<AllocFailed<T>> for Refusal {
    ghost from_gives = { λ _ e. e ≡ refusal.NoMemory };

    fn from(_e: AllocFailed<T>) -> Refusal {
        Refusal::NoMemory
    }
}

/// A broken rule in the file of a package with a number.
#[derive(Clone, Copy, Debug, PartialEq, Eq)]
pub struct Placed {
    pub file: u64,
    pub fault: Fault,
}

/// Why a package isn't accepted.
#[derive(Debug, Drop)]
pub enum PackageRefusal {
    At(Placed),
    NoMemory,
}

impl From<NoMemory> for PackageRefusal {
    ghost from_gives = { λ _ e. e ≡ packages.NoMemory };

    fn from(_e: NoMemory) -> PackageRefusal {
        PackageRefusal::NoMemory
    }
}

/// The kind of a fault of an operator on constants.
pub fn const_kind(fault: ConstFault) -> SourceKind
    ensures { result ≡ const_kind fault }
{
    match fault {
        ConstFault::ConstRange => SourceKind::ConstRange,
        ConstFault::ConstDivide => SourceKind::ConstDivide,
    }
}
