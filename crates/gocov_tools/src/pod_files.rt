//! The files of a pod in a directory.
ghost use Rattle.std.specs.Prelude.{◌≡◌, ◌++◌, IfOk, OnOk};
ghost use Rattle.std.specs.String.{string_bytes};
ghost use Rattle.cov_pods.specs.Paths as paths;
ghost use Rattle.gocov_tools.specs.Files as spec;

use crate::work::PutFile;
use cov_outside::{NoMemory, Sequence, Stamp};
use std::alloc::Global;

/// The path of a meta file with a hash in its name.
fn meta_path(alloc: Global, dir: &str, hash: &str) -> Result<String, NoMemory>
    ensures { IfOk result (λ path. string_bytes path ≡ paths.path_in dir.now (spec.meta_name hash.now)) }
{
    format!(in alloc; "{dir}/covmeta.{hash}")
}

/// The path of a counter file with a hash and a stamp in its name.
fn counter_path(alloc: Global, dir: &str, hash: &str, stamp: Stamp) -> Result<String, NoMemory>
    ensures { IfOk result (λ path. string_bytes path ≡ paths.path_in dir.now (spec.counter_name stamp hash.now)) }
{
    let pid = stamp.pid;
    let nanos = stamp.nanos;
    format!(in alloc; "{dir}/covcounters.{hash}.{pid}.{nanos}")
}

/// Appends the meta file and then the counter file of a pod.
pub fn push_pod(
    alloc: Global,
    puts: &mut Sequence<PutFile>,
    dir: &str,
    hash: &str,
    stamp: Stamp,
    meta: Sequence<u8>,
    counters: Sequence<u8>,
) -> Result<(), NoMemory>
    ensures { OnOk result (puts.new ≡ puts.old ++ spec.pod_files dir.now stamp hash.now meta counters) }
{
    let path = meta_path(alloc, dir, hash)?;
    puts.push(PutFile { path, bytes: meta })?;
    let path = counter_path(alloc, dir, hash, stamp)?;
    puts.push(PutFile {
        path,
        bytes: counters,
    })?;
    Ok(())
}
