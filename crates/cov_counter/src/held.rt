//! The bytes of a file, as far as they may be read.
ghost use Rattle.std.specs.Prelude.{◌≡◌, [], false, IfSome};
ghost use Rattle.std.specs.FinMap as map;
ghost use Rattle.cov_counter.specs.Outside.{Answers, CountsRead, file_at};

use crate::fault::CounterFault;
use cov_outside::Files;
use std::alloc::Global;
use std::marker::Model;

/// How many bytes of a data file may be read.
const MOST_BYTES: usize = 268_435_456;

/// The bytes of a file up to the limit, and whether the file has more.
#[derive(Drop)]
pub struct Held {
    bytes: Vec<u8>,
    more: bool,
}

impl Model for Held {
    ghost use Rattle.cov_counter.specs.File.{Known};

    ghost Value = { Known };

    ghost view = { λ h. record { bytes = h.bytes.items; more = h.more } };
}

impl Held {
    pub fn new(alloc: Global) -> Held
        ensures { result ≡ record { bytes = []; more = false } }
    {
        Held {
            bytes: Vec::new(alloc),
            more: false,
        }
    }

    pub fn bytes(&self) -> &[u8]
        ensures { result.now ≡ self.now.bytes }
    {
        &self.bytes
    }

    pub fn more(&self) -> bool
        ensures { result ≡ self.now.more }
    {
        self.more
    }

    /// Reads a file up to the limit.
    pub fn read<F: Files>(alloc: Global, files: &mut F, path: &str) -> Result<Held, CounterFault>
        ensures told { IfSome (F.tree files.old) (λ t. Answers result (file_at (map.get t path.now))) }
        ensures same { F.tree files.new ≡ F.tree files.old }
        ensures cause { CountsRead (F.read_faults files.old) (F.read_faults files.new) result }
        ensures puts { F.put_faults files.new ≡ F.put_faults files.old }
    {
        let mut bytes = Vec::new(alloc);
        let mut buf = [0u8; 65536];
        'more: loop {
            let at = bytes.len();
            let found = files.read_at(path, at as u64, &mut buf)?;
            let Some(n) = found else {
                return Err(CounterFault::Missing);
            };
            if n == 0 {
                return Ok(Held { bytes, more: false });
            }
            let room = MOST_BYTES - at;
            if n > room {
                bytes.extend_from_slice(&buf[..room])?;
                return Ok(Held { bytes, more: true });
            }
            bytes.extend_from_slice(&buf[..n])?;
        }
    }
}
