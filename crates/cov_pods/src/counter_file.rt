//! Reading one counter file of a pod.
ghost use Rattle.std.specs.Prelude.{◌≡◌, ℕ, ◌-◌, ◌<◌, ◌^◌, [], ◌∷◌, length, IfSome, OnOk};
ghost use Rattle.std.specs.FinMap as finmap;
ghost use Rattle.std.specs.Str.{IsUtf8};
ghost use Rattle.cov_bytes.specs.Many.{many};
ghost use Rattle.cov_counter.specs.Reader.{IsReady, IsBefore};
ghost use Rattle.cov_pods.specs.Decoding.{Gives, Matches, same_hash, entry_in, counters_in};
ghost use Rattle.cov_pods.specs.Fits.{fits, HasShortParts};
ghost use Rattle.cov_pods.specs.Outside.{CountsRead};
ghost use Rattle.cov_pods.specs.PodCounts.{IsCounted, Grows};
ghost use Rattle.cov_pods.specs.Stages.{offset_of, left_of, HasNext};

use crate::counts::{Counts, add_entry};
use crate::fault::PodFault;
use crate::path_fault::{at, of_counter};
use cov_counter::{CounterReader, Entry, Head};
use cov_meta::{Meta, MetaFile};
use cov_outside::{DataKind, Files, Text};
use std::alloc::Global;

/// The offset of the meta file's hash in a counter file.
const HASH_OFFSET: u64 = 8;

/// A length as a number of 32 bits, which it is in each file that was read.
fn number(len: usize) -> u32
    ensures { len < 2 ^ 32 → result ≡ len }
{
    u32::try_from(len).unwrap_or(u32::MAX)
}

/// Whether an entry fits a meta value.
fn check_entry(meta: &Meta, entry: &Entry) -> Result<(), DataKind>
    ensures fitting { OnOk result (fits meta.now entry.now ≡ Ok tt) }
    ensures told { HasShortParts meta.now → length entry.now.counts < 2 ^ 32 → result ≡ fits meta.now entry.now }
{
    let packages = meta.packages.as_slice();
    let Some(package) = packages.get(entry.package as usize) else {
        let index = entry.package;
        let count = number(packages.len());
        return Err(DataKind::BadPackage { index, count });
    };
    let functions = package.functions.as_slice();
    let Some(function) = functions.get(entry.function as usize) else {
        let index = entry.function;
        let count = number(functions.len());
        return Err(DataKind::BadFunction { index, count });
    };
    let counters = entry.counts.len();
    let units = function.units.len();
    if counters != units {
        let have = number(counters);
        let want = number(units);
        return Err(DataKind::BadCount { have, want });
    }
    Ok(())
}

/// The hash in a counter file is that of the meta file.
fn check_hash(path: &Text, meta: [u8; 16], counters: [u8; 16]) -> Result<(), PodFault>
    ensures { Gives result (same_hash path.now meta counters) }
{
    if meta != counters {
        let kind = DataKind::HashDiffers { meta, counters };
        return Err(at(path, HASH_OFFSET, kind));
    }
    Ok(())
}

/// Reads the next entry of a counter file, which has one, and adds it to the counts.
#[tactic(auto, using(crate::proofs::Causes::counter_counts, crate::proofs::Causes::data_counts))]
fn add_next<F: Files>(
    alloc: Global,
    reader: &mut CounterReader<'_, F>,
    path: &Text,
    meta: &Meta,
    counts: &mut Counts,
) -> Result<(), PodFault>
    requires ready { IsReady F.tree reader.old }
    requires left { HasNext reader.old.stage }
    requires path { reader.old.path.now ≡ path.now }
    requires parts { HasShortParts meta.now }
    requires counted { IsCounted meta.now counts.old }
    ensures reference { reader.new.files.ghost_name ≡ reader.old.files.ghost_name }
    ensures path { reader.new.path.now ≡ reader.old.path.now }
    ensures head { reader.new.head ≡ reader.old.head }
    ensures ready { OnOk result (IsReady F.tree reader.new) }
    ensures left { OnOk result (IsBefore (left_of reader.old.stage - 1) reader.new.stage) }
    ensures counted { OnOk result (IsCounted meta.now counts.new) }
    ensures told { IfSome (F.tree reader.old.files.now) (λ t. Matches (λ _ y. (y.1 ≡ offset_of reader.new.stage) × Grows meta.now counts.old counts.new (y.0 ∷ [])) result (entry_in meta.now path.now reader.old.head (finmap.get t path.now) (offset_of reader.old.stage))) }
    ensures same { F.tree reader.new.files.now ≡ F.tree reader.old.files.now }
    ensures cause { CountsRead (F.read_faults reader.old.files.now) (F.read_faults reader.new.files.now) result }
    ensures puts { F.put_faults reader.new.files.now ≡ F.put_faults reader.old.files.now }
{
    match reader.next(alloc) {
        Err(fault) => Err(of_counter(path, fault)),
        Ok(None) => unreachable!(),
        Ok(Some((offset, entry))) => match check_entry(meta, &entry) {
            Err(kind) => Err(at(path, offset, kind)),
            Ok(()) => {
                add_entry(alloc, meta, counts, &entry);
                Ok(())
            }
        },
    }
}

/// Adds the entries of a counter file, of which so many are left.
fn add_entries<F: Files>(
    alloc: Global,
    reader: &mut CounterReader<'_, F>,
    entries: u64,
    path: &Text,
    meta: &Meta,
    counts: &mut Counts,
) -> Result<(), PodFault>
    requires ready { IsReady F.tree reader.old }
    requires left { IsBefore entries reader.old.stage }
    requires path { reader.old.path.now ≡ path.now }
    requires parts { HasShortParts meta.now }
    requires counted { IsCounted meta.now counts.old }
    ensures reference { reader.new.files.ghost_name ≡ reader.old.files.ghost_name }
    ensures path { reader.new.path.now ≡ reader.old.path.now }
    ensures ready { OnOk result (IsReady F.tree reader.new) }
    ensures left { OnOk result (IsBefore 0 reader.new.stage) }
    ensures counted { OnOk result (IsCounted meta.now counts.new) }
    ensures told { IfSome (F.tree reader.old.files.now) (λ t. Matches (λ _ y. (y.1 ≡ offset_of reader.new.stage) × Grows meta.now counts.old counts.new y.0) result (many (entry_in meta.now path.now reader.old.head (finmap.get t path.now)) entries (offset_of reader.old.stage))) }
    ensures same { F.tree reader.new.files.now ≡ F.tree reader.old.files.now }
    ensures cause { CountsRead (F.read_faults reader.old.files.now) (F.read_faults reader.new.files.now) result }
    ensures puts { F.put_faults reader.new.files.now ≡ F.put_faults reader.old.files.now }
{
    for _ in 0..entries {
        add_next(alloc, reader, path, meta, counts)?;
    }
    Ok(())
}

/// Reads a counter file of a meta file and adds what it counts.
#[tactic(auto, using(crate::proofs::Causes::counter_counts, crate::proofs::Causes::fails_counts))]
pub fn add_file<F: Files>(
    alloc: Global,
    files: &mut F,
    path: &Text,
    file: &MetaFile,
    counts: &mut Counts,
) -> Result<Head, PodFault>
    requires utf8 { IsUtf8 path.now }
    requires parts { HasShortParts file.now.meta }
    requires counted { IsCounted file.now.meta counts.old }
    ensures counted { OnOk result (IsCounted file.now.meta counts.new) }
    ensures told { IfSome (F.tree files.old) (λ t. Matches (λ head y. (y.0 ≡ head) × Grows file.now.meta counts.old counts.new y.1) result (counters_in file.now path.now (finmap.get t path.now))) }
    ensures same { F.tree files.new ≡ F.tree files.old }
    ensures cause { CountsRead (F.read_faults files.old) (F.read_faults files.new) result }
    ensures puts { F.put_faults files.new ≡ F.put_faults files.old }
{
    let mut reader = CounterReader::new(alloc, files, path.as_str());
    if let Err(fault) = reader.open(alloc) {
        return Err(of_counter(path, fault));
    }
    let head = reader.head();
    check_hash(path, file.hash, head.hash)?;
    add_entries(alloc, &mut reader, head.entries, path, &file.meta, counts)?;
    match reader.finish() {
        Ok(()) => Ok(head),
        Err(fault) => Err(of_counter(path, fault)),
    }
}
