//! Files in memory, whose calls fail by their numbers.
ghost use Rattle.std.specs.Prelude.{◌≡◌, ◌≤◌, ◌<◌, ◌++◌, ◌∷◌, List, ℕ, Option, Some, [], IfOk, IfSome, IsTrue, All, IfNone, OnOk, OnErr, IsErr, Contains, IsErrOf, ◌↔◌, length, take, drop, map};
ghost use Rattle.std.specs.List.{insert, filter_map};
ghost use Rattle.std.specs.Option.{option_copied};
ghost use Rattle.std.specs.FinMap as finmap;
ghost use Rattle.std.specs.Ordering.{nat_cmp};
ghost use Rattle.std.specs.Cmp.Lexicographic.{slice_cmp};
ghost use Rattle.std.specs.Str.{IsUtf8};
ghost use Rattle.cov_outside.specs.Tree.{name_in, names_in, ReadsAt, SameElsewhere};
ghost use Rattle.cov_outside.specs.Faults.{Counts, CountsAny};
ghost use Rattle.cov_outside.specs.Memory.{IsNextCall, count_of};

use crate::entries::{Contents, copy_at, next};
use crate::fault::{Failed, FilesFault, NoMemory};
use crate::files::Files;
use crate::text::Text;
use std::alloc::Global;
use std::marker::Model;

#[derive(Debug, Drop)]
pub struct MemoryFiles {
    contents: Contents,
    failing: Vec<u64>,
    calls: u64,
    reads: u64,
    puts: u64,
}

impl Model for MemoryFiles {
    ghost use Rattle.cov_outside.specs.Memory.{FilesState, files_code};

    ghost Value = { FilesState };

    ghost coded = { files_code };

    ghost view = { λ m. record { tree = m.contents; failing = m.failing.items; calls = m.calls; reads = m.reads; puts = m.puts } };
}

impl MemoryFiles {
    /// No files. The calls with these numbers fail, and no others.
    pub fn new(alloc: Global, failing: &[u64]) -> Result<MemoryFiles, NoMemory>
        ensures { IfOk result (λ files. files ≡ record { tree = finmap.empty; failing = failing.now; calls = 0; reads = 0; puts = 0 }) }
    {
        Ok(MemoryFiles {
            contents: Contents::new(alloc),
            failing: Vec::from_slice(alloc, failing)?,
            calls: 0,
            reads: 0,
            puts: 0,
        })
    }

    pub fn add(&mut self, path: &str, bytes: &[u8]) -> Result<(), NoMemory>
        ensures ok { OnOk result (self.new ≡ record self.old { tree = finmap.insert self.old.tree path.now bytes.now }) }
        ensures err { OnErr result (self.new ≡ self.old) }
    {
        self.contents.insert(path, bytes)
    }

    pub fn get(&self, path: &str) -> Option<&[u8]>
        ensures { option_copied result ≡ finmap.get self.now.tree path.now }
    {
        self.contents.get(path)
    }
}

impl Files for MemoryFiles {
    ghost tree = { λ m. Some m.tree };

    ghost read_faults = { λ m. count_of m.failing m.reads };

    ghost put_faults = { λ m. count_of m.failing m.puts };

    fn list(&mut self, alloc: Global, dir: &str) -> Result<Vec<Text>, FilesFault>
        ensures names { IfOk result (λ names. names.items ≡ names_in dir.now self.old.tree) }
        ensures utf8 { IfOk result (λ names. All IsUtf8 names.items) }
        ensures same { Some self.new.tree ≡ Some self.old.tree }
        ensures cause { Counts (count_of self.old.failing self.old.reads) (count_of self.new.failing self.new.reads) result }
        ensures puts { count_of self.new.failing self.new.puts ≡ count_of self.old.failing self.old.puts }

        // The calls with the listed numbers fail, and no others.
        ensures fails { IsErrOf result FilesFault.Failed ↔ Contains self.old.failing self.old.calls }
        ensures next { IsNextCall self.old self.new }
    {
        if next(&self.failing, &mut self.calls) {
            self.reads = self.reads.saturating_add(1);
            return Err(FilesFault::Failed);
        }
        Ok(self.contents.names(alloc, dir)?)
    }

    fn read_at(&mut self, path: &str, at: u64, buf: &mut [u8]) -> Result<Option<usize>, Failed>
        ensures bound { IfOk result (λ found. IfSome found (λ n. n ≤ length buf.new)) }
        ensures bytes { IfOk result (λ found. ReadsAt (finmap.get self.old.tree path.now) at buf.new found) }
        ensures same { Some self.new.tree ≡ Some self.old.tree }
        ensures cause { CountsAny (count_of self.old.failing self.old.reads) (count_of self.new.failing self.new.reads) result }
        ensures puts { count_of self.new.failing self.new.puts ≡ count_of self.old.failing self.old.puts }

        ensures fails { IsErr result ↔ Contains self.old.failing self.old.calls }
        ensures next { IsNextCall self.old self.new }
    {
        if next(&self.failing, &mut self.calls) {
            self.reads = self.reads.saturating_add(1);
            return Err(Failed);
        }
        match self.contents.get(path) {
            Some(bytes) => Ok(Some(copy_at(bytes, at, buf))),
            None => Ok(None),
        }
    }

    fn put(&mut self, path: &str, bytes: &[u8]) -> Result<(), FilesFault>
        ensures ok { OnOk result (Some self.new.tree ≡ Some (finmap.insert self.old.tree path.now bytes.now)) }
        ensures failed { IsErrOf result FilesFault.Failed → SameElsewhere path.now (Some self.old.tree) (Some self.new.tree) }
        ensures no_memory { IsErrOf result FilesFault.NoMemory → Some self.new.tree ≡ Some self.old.tree }
        ensures cause { Counts (count_of self.old.failing self.old.puts) (count_of self.new.failing self.new.puts) result }
        ensures reads { count_of self.new.failing self.new.reads ≡ count_of self.old.failing self.old.reads }

        ensures fails { IsErrOf result FilesFault.Failed ↔ Contains self.old.failing self.old.calls }
        ensures next { IsNextCall self.old self.new }
    {
        if next(&self.failing, &mut self.calls) {
            self.puts = self.puts.saturating_add(1);
            return Err(FilesFault::Failed);
        }
        self.contents.insert(path, bytes)?;
        Ok(())
    }

    /// Every directory is there, so this only has its number among the calls.
    fn make_dir(&mut self, _dir: &str) -> Result<(), FilesFault>
        ensures same { Some self.new.tree ≡ Some self.old.tree }
        ensures cause { Counts (count_of self.old.failing self.old.puts) (count_of self.new.failing self.new.puts) result }
        ensures reads { count_of self.new.failing self.new.reads ≡ count_of self.old.failing self.old.reads }

        ensures fails { IsErrOf result FilesFault.Failed ↔ Contains self.old.failing self.old.calls }
        ensures ok { ¬ IsErrOf result FilesFault.NoMemory }
        ensures next { IsNextCall self.old self.new }
    {
        if next(&self.failing, &mut self.calls) {
            let faults = self.puts.saturating_add(1);
            self.puts = faults;
            return Err(FilesFault::Failed);
        }
        Ok(())
    }
}
