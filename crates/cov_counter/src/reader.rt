//! Reading a counter file entry by entry.
ghost use Rattle.std.specs.Prelude.{◌≡◌, IfNone, IfOk, IfSome, MatchResult, OnErr, OnOk, false, replicate};
ghost use Rattle.std.specs.FinMap as map;
ghost use Rattle.cov_counter.specs.declared.stage.Stage.TheVariants as stage;
ghost use Rattle.cov_counter.specs.File.{Gives};
ghost use Rattle.cov_counter.specs.Head.{head_at};
ghost use Rattle.cov_counter.specs.Entry.{entry_at};
ghost use Rattle.cov_counter.specs.Outside.{CountsRead, IsFaultOf};
ghost use Rattle.cov_counter.specs.Reader.{start_of, IsReady, IsOver, Opens, OpensAt, Advances, AdvancesAt, Finishes, Keeps, CountsFrom, EndsAt, IsBefore};

use crate::entry::{Entry, read_entry};
use crate::fault::CounterFault;
use crate::head::{Head, read_head};
use crate::held::Held;
use crate::rest::read_rest;
use crate::source::Source;
use crate::stage::Stage;
use cov_outside::Files;
use std::alloc::Global;

/// Reads a counter file: its head, its entries in order, and its end. After a fault each call answers that fault.
// The type of what is held is a parameter: a proof follows the borrowed files to where the reader is dropped only
// where the reader itself declares no field that owns memory.
pub struct CounterReader<'a, F: Files, H = Held> {
    files: &'a mut F,
    path: &'a str,
    held: H,
    head: Head,
    stage: Stage,
}

impl<'a, F: Files, H: Drop> Drop for CounterReader<'a, F, H> {
    fn drop(self)
        ensures { self.exit.0.now ≡ self.entry.files.now }
    {
        let CounterReader {
            files: _files,
            path: _path,
            held: _held,
            head: _head,
            stage: _stage,
        } = self;
    }
}

fn source_of(held: &Held) -> Source<'_>
    ensures { result ≡ record { file = held.now; at = 0 } }
{
    Source::new(held.bytes(), held.more())
}

/// The head, and the offset of the first entry.
fn first_of(held: &Held) -> Result<(Head, u64), CounterFault>
    ensures { Gives result (head_at held.now 0) }
{
    let mut source = source_of(held);
    let head = read_head(&mut source)?;
    Ok((head, source.at() as u64))
}

/// The entry at an offset, and the offset behind it.
fn entry_from(
    alloc: Global,
    held: &Held,
    head: &Head,
    at: u64,
) -> Result<(Entry, u64), CounterFault>
    ensures { Gives result (entry_at head.now held.now at) }
{
    let mut source = source_of(held);
    source.seek(at as usize)?;
    let entry = read_entry(alloc, &mut source, head)?;
    Ok((entry, source.at() as u64))
}

/// Reads what stands behind the last entry.
fn end_from(held: &Held, at: u64) -> Result<(), CounterFault>
    ensures { EndsAt at held.now result }
{
    let mut source = source_of(held);
    source.seek(at as usize)?;
    read_rest(&mut source)
}

impl<'a, F: Files> CounterReader<'a, F> {
    /// A reader that has read nothing, so that its head is that of a file without entries.
    pub fn new(alloc: Global, files: &'a mut F, path: &'a str) -> CounterReader<'a, F>
        ensures reference { result.files.ghost_name ≡ files.entry.ghost_name }
        ensures files { result.files.now ≡ files.old }
        ensures path { result.path.now ≡ path.now }
        ensures stage { result.stage ≡ stage.New }
        ensures head { result.head ≡ record { hash = replicate 16 0; flavour = 2; big = false; entries = 0; args = 0 } }
    {
        CounterReader {
            files,
            path,
            held: Held::new(alloc),
            head: Head {
                hash: [0; 16],
                flavour: 2,
                big: false,
                entries: 0,
                args: 0,
            },
            stage: Stage::New,
        }
    }

    /// A reader that has read up to the entries.
    pub fn start(
        alloc: Global,
        files: &'a mut F,
        path: &'a str,
    ) -> Result<CounterReader<'a, F>, CounterFault>
        ensures reference { IfOk result (λ r. r.files.ghost_name ≡ files.entry.ghost_name) }
        ensures path { IfOk result (λ r. r.path.now ≡ path.now) }
        ensures ready { IfOk result (λ r. IsReady F.tree r) }
        ensures stage { IfOk result (λ r. IsBefore r.head.entries r.stage) }
        ensures told { IfSome (F.tree files.old) (λ t. MatchResult result (λ r. OpensAt (Ok tt) r.stage r.head (start_of (map.get t path.now))) (λ e. IsFaultOf e (start_of (map.get t path.now)))) }
        ensures same { IfOk result (λ r. F.tree r.files.now ≡ F.tree files.old) }
        ensures reads { IfOk result (λ r. F.read_faults r.files.now ≡ F.read_faults files.old) }
        ensures puts { IfOk result (λ r. F.put_faults r.files.now ≡ F.put_faults files.old) }
    {
        let mut reader = CounterReader::new(alloc, files, path);
        reader.open(alloc)?;
        Ok(reader)
    }

    #[tactic(auto, unfolding(crate::specs::Reader::start_of, crate::specs::Reader::IsReady, crate::specs::Reader::IsHeld))]
    fn read_start(&mut self, alloc: Global) -> Result<(), CounterFault>
        ensures reference { self.new.files.ghost_name ≡ self.old.files.ghost_name }
        ensures path { self.new.path.now ≡ self.old.path.now }
        ensures ready { OnOk result (IsReady F.tree self.new) }
        ensures stage { OnOk result (IsBefore self.new.head.entries self.new.stage) }
        ensures head { OnErr result (self.new.head ≡ self.old.head) }
        ensures told { IfSome (F.tree self.old.files.now) (λ t. OpensAt result self.new.stage self.new.head (start_of (map.get t self.old.path.now))) }
        ensures same { F.tree self.new.files.now ≡ F.tree self.old.files.now }
        ensures cause { CountsRead (F.read_faults self.old.files.now) (F.read_faults self.new.files.now) result }
        ensures puts { F.put_faults self.new.files.now ≡ F.put_faults self.old.files.now }
    {
        self.held = Held::read(alloc, self.files, self.path)?;
        let (head, at) = first_of(&self.held)?;
        self.head = head;
        self.stage = Stage::Reading {
            at,
            left: head.entries,
        };
        Ok(())
    }

    /// Reads up to the entries.
    #[tactic(auto, unfolding(crate::specs::Reader::IsReady, crate::specs::Reader::IsHeld))]
    pub fn open(&mut self, alloc: Global) -> Result<(), CounterFault>
        requires { self.old.stage ≡ stage.New }
        ensures reference { self.new.files.ghost_name ≡ self.old.files.ghost_name }
        ensures path { self.new.path.now ≡ self.old.path.now }
        ensures ready { IsReady F.tree self.new }
        ensures stage { Opens self.new.stage self.new.head result }
        ensures head { OnErr result (self.new.head ≡ self.old.head) }
        ensures told { IfSome (F.tree self.old.files.now) (λ t. OpensAt result self.new.stage self.new.head (start_of (map.get t self.old.path.now))) }
        ensures same { F.tree self.new.files.now ≡ F.tree self.old.files.now }
        ensures cause { CountsRead (F.read_faults self.old.files.now) (F.read_faults self.new.files.now) result }
        ensures puts { F.put_faults self.new.files.now ≡ F.put_faults self.old.files.now }
    {
        match self.read_start(alloc) {
            Ok(()) => Ok(()),
            Err(fault) => {
                self.stage = Stage::Failed(fault);
                Err(fault)
            }
        }
    }

    /// What stands before the entries.
    pub fn head(&self) -> Head
        ensures { result ≡ self.now.head }
    {
        self.head
    }

    /// The offset of the next entry and the entry; `None` exactly after the last.
    #[tactic(auto, unfolding(crate::specs::Reader::IsReady, crate::specs::Reader::IsHeld, crate::specs::Reader::entry_of))]
    pub fn next(&mut self, alloc: Global) -> Result<Option<(u64, Entry)>, CounterFault>
        requires { IsReady F.tree self.old }
        ensures reference { self.new.files.ghost_name ≡ self.old.files.ghost_name }
        ensures path { self.new.path.now ≡ self.old.path.now }
        ensures head { self.new.head ≡ self.old.head }
        ensures ready { IsReady F.tree self.new }
        ensures stage { Advances self.old.stage self.new.stage result }
        ensures over { IfOk result (λ found. IfNone found (IsOver self.new.stage)) }
        ensures told { IfSome (F.tree self.old.files.now) (λ t. AdvancesAt self.old.stage result self.new.stage self.old.head (map.get t self.old.path.now)) }
        ensures same { F.tree self.new.files.now ≡ F.tree self.old.files.now }
        ensures cause { CountsFrom result self.old.stage (F.read_faults self.old.files.now) (F.read_faults self.new.files.now) }
        ensures puts { F.put_faults self.new.files.now ≡ F.put_faults self.old.files.now }
    {
        match self.stage {
            Stage::Reading { at, left } => {
                if left == 0 {
                    return Ok(None);
                }
                match entry_from(alloc, &self.held, &self.head, at) {
                    Ok((entry, next)) => {
                        self.stage = Stage::Reading {
                            at: next,
                            left: left - 1,
                        };
                        Ok(Some((at, entry)))
                    }
                    Err(first) => {
                        self.stage = Stage::Failed(first);
                        Err(first)
                    }
                }
            }
            Stage::Failed(fault) => Err(fault),
            Stage::New => unreachable!(),
        }
    }

    /// Reads what stands behind the last entry.
    #[tactic(auto, unfolding(crate::specs::Reader::IsReady, crate::specs::Reader::IsHeld, crate::specs::Reader::end_of))]
    pub fn finish(self) -> Result<(), CounterFault>
        requires ready { IsReady F.tree self }
        requires over { IsOver self.stage }
        ensures kept { Keeps self.entry.stage result }
        ensures told { IfSome (F.tree self.entry.files.now) (λ t. Finishes self.entry.stage result (map.get t self.entry.path.now)) }
        ensures same { F.tree self.exit.0.now ≡ F.tree self.entry.files.now }
        ensures cause { CountsFrom result self.entry.stage (F.read_faults self.entry.files.now) (F.read_faults self.exit.0.now) }
        ensures puts { F.put_faults self.exit.0.now ≡ F.put_faults self.entry.files.now }
    {
        let CounterReader {
            files: _files,
            path: _path,
            held,
            head: _head,
            stage,
        } = self;
        match stage {
            Stage::Reading { at, .. } => end_from(&held, at),
            Stage::Failed(fault) => Err(fault),
            Stage::New => unreachable!(),
        }
    }
}
