//! A tree of files.
ghost use Rattle.std.specs.Prelude.{◌≡◌, List, ℕ, Option, All, IfOk, IfErr, IfSome, IsErrOf, OnOk, MatchResult, length, ◌≤◌};
ghost use Rattle.std.specs.Option.{option_map};
ghost use Rattle.std.specs.Str.{IsUtf8};
ghost use Rattle.std.specs.FinMap as map;
ghost use Rattle.cov_outside.specs.Tree.{Tree, names_in, ReadsAt, SameElsewhere};
ghost use Rattle.cov_outside.specs.Faults.{Count, Counts, CountsAny};

use crate::fault::{Failed, FilesFault};
use crate::text::Text;
use std::alloc::Global;

pub trait Files {
    /// The content of each path, for an object that tells it.
    ghost tree: { Self → Option Tree };

    /// How often a read or a listing has failed.
    ghost read_faults: { Self → Count };

    /// How often a put has failed.
    ghost put_faults: { Self → Count };

    /// The names of the files directly in a directory, each once, in byte order.
    fn list(&mut self, alloc: Global, dir: &str) -> Result<Vec<Text>, FilesFault>
        ensures names { IfOk result (λ names. IfSome (tree self.old) (λ t. names.items ≡ names_in dir.now t)) }
        ensures utf8 { IfOk result (λ names. All IsUtf8 names.items) }
        ensures same { tree self.new ≡ tree self.old }
        ensures cause { Counts (read_faults self.old) (read_faults self.new) result }
        ensures puts { put_faults self.new ≡ put_faults self.old };

    /// Reads bytes of a path from an offset on. `None`: there is no such path.
    fn read_at(&mut self, path: &str, at: u64, buf: &mut [u8]) -> Result<Option<usize>, Failed>
        ensures bound { IfOk result (λ found. IfSome found (λ n. n ≤ length buf.new)) }
        ensures bytes { IfOk result (λ found. IfSome (tree self.old) (λ t. ReadsAt (map.get t path.now) at buf.new found)) }
        ensures same { tree self.new ≡ tree self.old }
        ensures cause { CountsAny (read_faults self.old) (read_faults self.new) result }
        ensures puts { put_faults self.new ≡ put_faults self.old };

    /// The path holds exactly these bytes, and all else stays.
    fn put(&mut self, path: &str, bytes: &[u8]) -> Result<(), FilesFault>
        ensures ok { OnOk result (tree self.new ≡ option_map (λ t. map.insert t path.now bytes.now) (tree self.old)) }
        ensures failed { IsErrOf result FilesFault.Failed → SameElsewhere path.now (tree self.old) (tree self.new) }
        ensures no_memory { IsErrOf result FilesFault.NoMemory → tree self.new ≡ tree self.old }
        ensures cause { Counts (put_faults self.old) (put_faults self.new) result }
        ensures reads { read_faults self.new ≡ read_faults self.old };

    /// Makes a directory, and those above it, where they are missing. The files stay.
    fn make_dir(&mut self, dir: &str) -> Result<(), FilesFault>
        ensures same { tree self.new ≡ tree self.old }
        ensures cause { Counts (put_faults self.old) (put_faults self.new) result }
        ensures reads { read_faults self.new ≡ read_faults self.old };
}
