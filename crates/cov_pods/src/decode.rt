//! Reading the files of a pod.
ghost use Rattle.std.specs.Prelude.{◌≡◌, All, IfSome, IfOk, OnOk, length, map, flat_map};
ghost use Rattle.std.specs.FinMap as finmap;
ghost use Rattle.std.specs.Str.{IsUtf8};
ghost use Rattle.cov_outside.specs.Whole.{whole_file};
ghost use Rattle.cov_pods.specs.Outside.{CountsRead};
ghost use Rattle.cov_pods.specs.Paths.{HasTextPaths};
ghost use Rattle.cov_pods.specs.Decoding.{Gives, Finds, Matches, is_wanted, from_whole, from_meta, meta_in, meta_file_in, all_counters, decoded};
ghost use Rattle.cov_pods.specs.Fits.{HasShortParts};
ghost use Rattle.cov_pods.specs.PodCounts.{IsCounted, Grows, pod_counts};
ghost use Rattle.cov_meta.specs.File.{meta_of};

use crate::counter_file::add_file;
use crate::counts::{Counts, zeros};
use crate::decoded::DecodedPod;
use crate::fault::PodFault;
use crate::path_fault::{of_meta, of_whole};
use crate::pod::Pod;
use cov_counter::Head;
use cov_meta::{MetaFile, read_meta};
use cov_outside::{Files, Mode, Sequence, Text, read_whole};
use std::alloc::Global;

/// The most bytes that a data file may have.
const DATA_BYTES: u64 = 268_435_456;

#[tactic(auto, using(crate::proofs::Causes::whole_counts))]
fn read_bytes<F: Files>(alloc: Global, files: &mut F, path: &Text) -> Result<Vec<u8>, PodFault>
    requires { IsUtf8 path.now }
    ensures told { IfSome (F.tree files.old) (λ t. Matches (λ v bytes. bytes ≡ v.items) result (from_whole path.now (whole_file 268435456 (finmap.get t path.now)))) }
    ensures same { F.tree files.new ≡ F.tree files.old }
    ensures cause { CountsRead (F.read_faults files.old) (F.read_faults files.new) result }
    ensures puts { F.put_faults files.new ≡ F.put_faults files.old }
{
    match read_whole(alloc, files, path.as_str(), DATA_BYTES) {
        Ok(bytes) => Ok(bytes),
        Err(fault) => Err(of_whole(path, fault)),
    }
}

/// The mode is the wanted one, where one is wanted.
fn check_mode(wanted: Option<Mode>, mode: Mode) -> Result<(), PodFault>
    ensures { Gives result (is_wanted wanted mode) }
{
    match wanted {
        Some(wanted) if wanted != mode => Err(PodFault::Mode(mode)),
        _ => Ok(()),
    }
}

/// What a meta file says.
fn meta_from(alloc: Global, path: &Text, bytes: &[u8]) -> Result<MetaFile, PodFault>
    ensures told { Gives result (from_meta path.now (meta_of bytes.now)) }
    ensures parts { IfOk result (λ file. HasShortParts file.meta) }
{
    cov_meta::laws::laws();
    match read_meta(alloc, bytes) {
        Ok(file) => Ok(file),
        Err(fault) => Err(of_meta(path, fault)),
    }
}

/// What a meta file in the wanted mode says.
#[tactic(auto, unfolding(crate::specs::Decoding::meta_in))]
fn read_file(
    alloc: Global,
    path: &Text,
    bytes: &[u8],
    wanted: Option<Mode>,
) -> Result<MetaFile, PodFault>
    ensures told { Gives result (meta_in path.now wanted bytes.now) }
    ensures parts { IfOk result (λ file. HasShortParts file.meta) }
{
    let file = meta_from(alloc, path, bytes)?;
    check_mode(wanted, file.meta.mode)?;
    Ok(file)
}

/// Reads counter files in order and adds what they count.
fn add_files<F: Files>(
    alloc: Global,
    files: &mut F,
    paths: &[Text],
    file: &MetaFile,
    counts: &mut Counts,
) -> Result<Vec<Head>, PodFault>
    requires utf8 { All IsUtf8 paths.now }
    requires parts { HasShortParts file.now.meta }
    requires counted { IsCounted file.now.meta counts.old }
    ensures counted { OnOk result (IsCounted file.now.meta counts.new) }
    ensures heads { IfOk result (λ heads. length heads.items ≡ length paths.now) }
    ensures told { IfSome (F.tree files.old) (λ t. Matches (λ heads y. (heads.items ≡ map (λ c. c.0) y) × Grows file.now.meta counts.old counts.new (flat_map (λ c. c.1) y)) result (all_counters file.now t paths.now)) }
    ensures same { F.tree files.new ≡ F.tree files.old }
    ensures cause { CountsRead (F.read_faults files.old) (F.read_faults files.new) result }
    ensures puts { F.put_faults files.new ≡ F.put_faults files.old }
{
    let mut heads = Vec::new(alloc);
    for path in paths {
        heads.push(add_file(alloc, files, path, file, counts)?)?;
    }
    Ok(heads)
}

/// Reads a meta file: its bytes, and what they say.
#[tactic(auto, using(crate::proofs::Causes::fails_counts))]
fn read_meta_file<F: Files>(
    alloc: Global,
    files: &mut F,
    path: &Text,
    wanted: Option<Mode>,
) -> Result<(Vec<u8>, MetaFile), PodFault>
    requires { IsUtf8 path.now }
    ensures parts { IfOk result (λ read. HasShortParts read.1.meta) }
    ensures told { IfSome (F.tree files.old) (λ t. Matches (λ read y. y ≡ (read.0.items, read.1)) result (meta_file_in path.now wanted (finmap.get t path.now))) }
    ensures same { F.tree files.new ≡ F.tree files.old }
    ensures cause { CountsRead (F.read_faults files.old) (F.read_faults files.new) result }
    ensures puts { F.put_faults files.new ≡ F.put_faults files.old }
{
    let bytes = read_bytes(alloc, files, path)?;
    let file = read_file(alloc, path, &bytes, wanted)?;
    Ok((bytes, file))
}

/// What counter files count, and their heads.
fn count_files<F: Files>(
    alloc: Global,
    files: &mut F,
    paths: &[Text],
    file: &MetaFile,
) -> Result<(Counts, Vec<Head>), PodFault>
    requires utf8 { All IsUtf8 paths.now }
    requires parts { HasShortParts file.now.meta }
    ensures counted { IfOk result (λ x. IsCounted file.now.meta x.0) }
    ensures heads { IfOk result (λ x. length x.1.items ≡ length paths.now) }
    ensures told { IfSome (F.tree files.old) (λ t. Matches (λ x y. (x.0 ≡ pod_counts file.now.meta (flat_map (λ c. c.1) y)) × (x.1.items ≡ map (λ c. c.0) y)) result (all_counters file.now t paths.now)) }
    ensures same { F.tree files.new ≡ F.tree files.old }
    ensures cause { CountsRead (F.read_faults files.old) (F.read_faults files.new) result }
    ensures puts { F.put_faults files.new ≡ F.put_faults files.old }
{
    let mut counts = zeros(alloc, &file.meta)?;
    let heads = add_files(alloc, files, paths, file, &mut counts)?;
    Ok((counts, heads))
}

/// Reads the files of a pod, the meta file first.
///
/// The first fault in reading order counts. A mode is looked at where one is wanted, after the meta file.
pub fn decode_pod<F: Files>(
    alloc: Global,
    files: &mut F,
    pod: &Pod,
    wanted: Option<Mode>,
) -> Result<DecodedPod, PodFault>
    requires { HasTextPaths pod.now }
    ensures told { IfSome (F.tree files.old) (λ t. Finds result (decoded t pod.now wanted)) }
    ensures same { F.tree files.new ≡ F.tree files.old }
    ensures cause { CountsRead (F.read_faults files.old) (F.read_faults files.new) result }
    ensures puts { F.put_faults files.new ≡ F.put_faults files.old }
{
    let (bytes, file) = read_meta_file(alloc, files, &pod.meta, wanted)?;
    let (counts, heads) = count_files(alloc, files, pod.counters.as_slice(), &file)?;
    Ok(DecodedPod {
        pod: pod.copy(alloc)?,
        bytes: Sequence::from_vec(bytes),
        file,
        counts,
        heads: Sequence::from_vec(heads),
    })
}
