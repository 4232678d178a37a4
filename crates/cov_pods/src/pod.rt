//! Which files belong together.
ghost use Rattle.std.specs.Prelude.{◌≡◌, IfOk};

use cov_outside::{NoMemory, Sequence, Text, copy_texts};
use std::alloc::Global;

/// The names of the files directly in a directory.
#[derive(Debug, Drop)]
pub struct DirNames {
    pub dir: Text,
    pub names: Sequence<Text>,
}

/// A meta file and the counter files with its hash.
#[derive(Debug, Drop)]
pub struct Pod {
    /// 32 digits of 0 to 9 and a to f.
    pub hash: Text,
    /// The path of the meta file.
    pub meta: Text,
    /// The paths of the counter files, in order.
    pub counters: Sequence<Text>,
}

impl Pod {
    /// An equal pod.
    pub fn copy(&self, alloc: Global) -> Result<Pod, NoMemory>
        ensures { IfOk result (λ pod. pod ≡ self.now) }
    {
        Ok(Pod {
            hash: self.hash.clone()?,
            meta: self.meta.clone()?,
            counters: copy_texts(alloc, self.counters.as_slice())?,
        })
    }
}
