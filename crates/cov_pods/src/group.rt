//! Which names of directories make pods.
ghost use Rattle.std.specs.Prelude.{◌≡◌, [], ◌∷◌, ◌++◌, List, All, IfOk, OnOk};
ghost use Rattle.cov_bytes.specs.Intern.{index_of, with_text};
ghost use Rattle.cov_pods.specs.Names as names;
ghost use Rattle.cov_pods.specs.Paths as paths;
ghost use Rattle.cov_pods.specs.Paths.{HasTextDir, HasTextPaths};
ghost use Rattle.cov_pods.specs.Pods.{Found, file_in, found_in, found, pod_of, pods_of, HoldsMetas, HoldsCounters};

use crate::names::{counter_hash, meta_hash};
use crate::pod::{DirNames, Pod};
use cov_bytes::StringTable;
use cov_outside::{NoMemory, Sequence, Text};
use std::alloc::{AllocError, Global};

/// The path of a name in a directory.
fn path_in(alloc: Global, dir: &Text, name: &Text) -> Result<Text, NoMemory>
    ensures { IfOk result (λ path. path ≡ paths.path_in dir.now name.now) }
{
    let mut path = Vec::from_slice(alloc, dir.bytes())?;
    path.push(b'/')?;
    path.extend_from_slice(name.bytes())?;
    Ok(Text::from_vec(path))
}

/// The number of a hash, the next one if it is new.
fn number_of(hashes: &mut StringTable, hash: &[u8]) -> Result<usize, NoMemory>
    ensures index { IfOk result (λ i. i ≡ index_of hashes.old hash.now) }
    ensures texts { OnOk result (hashes.new ≡ with_text hashes.old hash.now) }
{
    if hashes.len() >= u32::MAX as usize {
        return Err(AllocError);
    }
    Ok(hashes.intern(hash)? as usize)
}

/// A pod without counter files.
fn bare_pod(alloc: Global, hash: &[u8], dir: &Text, name: &Text) -> Result<Pod, NoMemory>
    ensures { IfOk result (λ pod. pod ≡ pod_of [] (file_in dir.now name.now hash.now)) }
{
    Ok(Pod {
        hash: Text::of(alloc, hash)?,
        meta: path_in(alloc, dir, name)?,
        counters: Sequence::new(alloc),
    })
}

/// Adds the pod of a meta file whose hash is new.
fn add_meta(
    alloc: Global,
    hashes: &mut StringTable,
    pods: &mut Vec<Pod>,
    hash: &[u8],
    dir: &Text,
    name: &Text,
) -> Result<(), NoMemory>
    ensures { OnOk result ((metas : List Found) → HoldsMetas metas hashes.old pods.old.items → HoldsMetas (metas ++ file_in dir.now name.now hash.now ∷ []) hashes.new pods.new.items) }
{
    if number_of(hashes, hash)? == pods.len() {
        pods.push(bare_pod(alloc, hash, dir, name)?)?;
    }
    Ok(())
}

/// Adds a counter file to the pod with its hash, where there is one.
fn add_counter(
    alloc: Global,
    hashes: &mut StringTable,
    pods: &mut Vec<Pod>,
    hash: &[u8],
    dir: &Text,
    name: &Text,
) -> Result<(), NoMemory>
    ensures { OnOk result ((metas counters : List Found) → HoldsCounters metas counters hashes.old pods.old.items → HoldsCounters metas (counters ++ file_in dir.now name.now hash.now ∷ []) hashes.new pods.new.items) }
{
    let number = number_of(hashes, hash)?;
    if number < pods.len() {
        let path = path_in(alloc, dir, name)?;
        let pod = &mut pods[number];
        pod.counters.push(path)?;
    }
    Ok(())
}

/// Adds the pods of the meta files of a directory.
fn add_metas(
    alloc: Global,
    hashes: &mut StringTable,
    pods: &mut Vec<Pod>,
    dir: &DirNames,
) -> Result<(), NoMemory>
    ensures { OnOk result ((metas : List Found) → HoldsMetas metas hashes.old pods.old.items → HoldsMetas (metas ++ found_in names.meta_hash dir.now) hashes.new pods.new.items) }
{
    for name in dir.names.as_slice() {
        if let Some(hash) = meta_hash(name.bytes()) {
            add_meta(alloc, hashes, pods, hash, &dir.dir, name)?;
        }
    }
    Ok(())
}

/// Adds the counter files of a directory to the pods.
fn add_counters(
    alloc: Global,
    hashes: &mut StringTable,
    pods: &mut Vec<Pod>,
    dir: &DirNames,
) -> Result<(), NoMemory>
    ensures { OnOk result ((metas counters : List Found) → HoldsCounters metas counters hashes.old pods.old.items → HoldsCounters metas (counters ++ found_in names.counter_hash dir.now) hashes.new pods.new.items) }
{
    for name in dir.names.as_slice() {
        if let Some(hash) = counter_hash(name.bytes()) {
            add_counter(alloc, hashes, pods, hash, &dir.dir, name)?;
        }
    }
    Ok(())
}

/// All meta files of directories, as pods without counter files.
fn metas_of(
    alloc: Global,
    hashes: &mut StringTable,
    dirs: &[DirNames],
) -> Result<Vec<Pod>, NoMemory>
    ensures { IfOk result (λ pods. hashes.old ≡ [] → HoldsMetas (found names.meta_hash dirs.now) hashes.new pods.items) }
{
    let mut pods = Vec::new(alloc);
    for dir in dirs {
        add_metas(alloc, hashes, &mut pods, dir)?;
    }
    Ok(pods)
}

/// The pods of directories, in the order in which their meta names first occur.
///
/// A pod has the first meta file found with its hash and all counter files with it. Other names are left out.
pub fn collect(alloc: Global, dirs: &[DirNames]) -> Result<Vec<Pod>, NoMemory>
    ensures pods { IfOk result (λ pods. pods.items ≡ pods_of dirs.now) }
    ensures utf8 { All HasTextDir dirs.now → IfOk result (λ pods. All HasTextPaths pods.items) }
{
    let mut hashes = StringTable::new(alloc);
    let mut pods = metas_of(alloc, &mut hashes, dirs)?;
    for dir in dirs {
        add_counters(alloc, &mut hashes, &mut pods, dir)?;
    }
    Ok(pods)
}

#[cfg(test)]
mod tests;
