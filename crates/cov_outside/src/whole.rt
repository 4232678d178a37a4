//! Whole files.
ghost use Rattle.std.specs.Prelude.{◌≡◌, ◌≤◌, IfOk, IfSome, length};
ghost use Rattle.std.specs.FinMap as map;
ghost use Rattle.cov_outside.specs.Whole.{Finds, whole_file, CountsRead};
ghost use Rattle.cov_outside.specs.declared.whole.WholeFault.TheVariants.{NoMemory as whole_memory};

use crate::files::Files;
use std::alloc::{AllocError, AllocFailed, Global};

/// Why a file isn't read whole.
#[derive(Clone, Copy, Debug, PartialEq, Eq)]
pub enum WholeFault {
    Missing,
    Limit,
    Read,
    NoMemory,
}

impl From<AllocError> for WholeFault {
    ghost from_gives = { λ _ e. e ≡ whole_memory };

    fn from(_e: AllocError) -> WholeFault {
        WholeFault::NoMemory
    }
}

/// The bytes of a file that has at most `limit` of them.
pub fn read_whole<F: Files>(
    alloc: Global,
    files: &mut F,
    path: &str,
    limit: u64,
) -> Result<Vec<u8>, WholeFault>
    ensures told { IfSome (F.tree files.old) (λ t. Finds (λ v. v.items) result (whole_file limit (map.get t path.now))) }
    ensures short { IfOk result (λ v. length v.items ≤ limit) }
    ensures same { F.tree files.new ≡ F.tree files.old }
    ensures cause { CountsRead (F.read_faults files.old) (F.read_faults files.new) result }
    ensures puts { F.put_faults files.new ≡ F.put_faults files.old }
{
    let mut bytes = Vec::new(alloc);
    let mut buf = [0u8; 65536];
    'more: loop {
        let at = bytes.len() as u64;
        match files.read_at(path, at, &mut buf) {
            Err(_) => return Err(WholeFault::Read),
            Ok(None) => return Err(WholeFault::Missing),
            Ok(Some(0)) => return Ok(bytes),
            Ok(Some(n)) => {
                if n as u64 > limit - at {
                    return Err(WholeFault::Limit);
                }
                bytes.extend_from_slice(&buf[..n])?;
            }
        }
    }
}
