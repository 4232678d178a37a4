//! Why a table can't take a pod or another table.
ghost use Rattle.std.specs.Prelude.{◌≡◌};
ghost use Rattle.cov_table.specs.Refusal.{ClashesExactly};
ghost use Rattle.cov_table.specs.declared.refusal.TableRefusal.TheVariants as table_refusal;

use cov_outside::Mode;
use std::alloc::{AllocError, AllocFailed};

/// Why a table stays as it was.
#[derive(Clone, Copy, Debug, PartialEq, Eq)]
pub enum TableRefusal {
    /// Both sides have a mode, and they differ.
    ModeClash { first: Mode, second: Mode },
    NoMemory,
}

impl From<AllocError> for TableRefusal {
    ghost from_gives = { λ _ e. e ≡ table_refusal.NoMemory };

    fn from(_e: AllocError) -> TableRefusal {
        TableRefusal::NoMemory
    }
}

impl<T: Drop> From<AllocFailed<T>> for TableRefusal {
    ghost from_gives = { λ _ e. e ≡ table_refusal.NoMemory };

    fn from(_e: AllocFailed<T>) -> TableRefusal {
        TableRefusal::NoMemory
    }
}

/// Refuses two modes that differ.
pub fn agree(first: Option<Mode>, second: Option<Mode>) -> Result<(), TableRefusal>
    ensures { ClashesExactly result first second }
{
    match (first, second) {
        (Some(first), Some(second)) if first != second => {
            Err(TableRefusal::ModeClash { first, second })
        }
        _ => Ok(()),
    }
}
