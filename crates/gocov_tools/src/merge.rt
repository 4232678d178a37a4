//! `merge`: pods with one counter file each.
ghost use Rattle.std.specs.Prelude.{◌≡◌, ◌++◌, IfOk, IfSome, OnOk, All, is_some, true};
ghost use Rattle.std.specs.List.{flat_map};
ghost use Rattle.gocov_tools.specs.Files.{merged_files};
ghost use Rattle.gocov_tools.specs.Command.{merged};
ghost use Rattle.gocov_tools.specs.Outside.{CountsRead};
ghost use Rattle.gocov_tools.specs.Reading.{HasFewUnits};
ghost use Rattle.gocov_tools.specs.Refusals.{Gives};

use crate::entries::entries_from;
use crate::pod_files::push_pod;
use crate::pods::read_dirs;
use crate::refusal::Refusal;
use crate::work::{PutFile, Work};
use cov_counter::write_counters;
use cov_outside::{Files, NoMemory, Sequence, Stamp};
use cov_pods::DecodedPod;
use gocov_words::DataArgs;
use std::alloc::{AllocError, Global};
use std::str::from_utf8;

/// Appends the meta file of a pod as it is, and one counter file with its counts.
fn push_merged(
    alloc: Global,
    puts: &mut Sequence<PutFile>,
    dir: &str,
    stamp: Stamp,
    pod: &DecodedPod,
) -> Result<(), NoMemory>
    requires { HasFewUnits pod.now }
    ensures { OnOk result (puts.new ≡ puts.old ++ merged_files dir.now stamp pod.now) }
{
    // A hash is hexadecimal digits; what is promised of a decoded pod doesn't say so.
    let Ok(hash) = from_utf8(pod.pod.hash.bytes()) else {
        return Err(AllocError);
    };
    let entries = entries_from(alloc, pod.counts.as_slice())?;
    let counters = write_counters(alloc, &pod.file.hash, &entries)?;
    let meta = Vec::from_slice(alloc, pod.bytes.as_slice())?;
    push_pod(
        alloc,
        puts,
        dir,
        hash,
        stamp,
        Sequence::from_vec(meta),
        Sequence::from_vec(counters),
    )
}

/// The files of merged pods in a directory.
fn merged_puts(
    alloc: Global,
    dir: &str,
    stamp: Stamp,
    pods: &[DecodedPod],
) -> Result<Sequence<PutFile>, NoMemory>
    requires { All HasFewUnits pods.now }
    ensures { IfOk result (λ puts. puts ≡ flat_map (merged_files dir.now stamp) pods.now) }
{
    let mut puts = Sequence::new(alloc);
    for pod in pods {
        push_merged(alloc, &mut puts, dir, stamp, pod)?;
    }
    Ok(puts)
}

/// The pods of directories, each with one counter file.
#[tactic(auto, unfolding(crate::specs::Command::merged))]
pub fn merge_work<F: Files>(
    alloc: Global,
    args: &DataArgs,
    files: &mut F,
    stamp: Stamp,
) -> Result<Work, Refusal>
    requires { is_some args.now.out ≡ true }
    ensures told { IfSome (F.tree files.old) (λ t. Gives (λ work. work) result (merged stamp args.now t)) }
    ensures same { F.tree files.new ≡ F.tree files.old }
    ensures cause { CountsRead (F.read_faults files.old) (F.read_faults files.new) result }
    ensures puts { F.put_faults files.new ≡ F.put_faults files.old }
{
    let Some(dir) = &args.out else { unreachable!() };
    let pods = read_dirs(alloc, files, args.dirs.as_slice())?;
    let puts = merged_puts(alloc, dir.as_str(), stamp, &pods)?;
    Ok(Work {
        text: Sequence::new(alloc),
        puts,
    })
}
