//! All pods of a command.
ghost use Rattle.std.specs.Prelude.{◌≡◌, All, IfOk, IfSome, OnOk};
ghost use Rattle.cov_pods.specs.Paths.{HasTextPaths};
ghost use Rattle.cov_table.specs.Coverage.{with_pod};
ghost use Rattle.gocov_tools.specs.Command.{all_pods, table_from, table_in};
ghost use Rattle.gocov_tools.specs.Modes.{HasModeOf, KeepsMode};
ghost use Rattle.gocov_tools.specs.Outside.{CountsRead};
ghost use Rattle.gocov_tools.specs.Reading.{HasFewUnits, mode_of, pods_in};
ghost use Rattle.gocov_tools.specs.Refusals.{Gives};
ghost use Rattle.gocov_words.specs.Texts.{IsName};

use crate::listing::names_of;
use crate::reading::{FirstMeta, Reading, read_pod};
use crate::refusal::Refusal;
use cov_outside::{Files, NoMemory, Text};
use cov_pods::{DecodedPod, Pod, collect};
use cov_table::{Table, TableRefusal};
use std::alloc::{AllocError, Global};

/// Adds a pod to a table of pods in its mode.
fn add_pod(table: &mut Table, pod: &DecodedPod, first: &Option<FirstMeta>) -> Result<(), NoMemory>
    requires table { HasModeOf first.now table.old.mode }
    requires pod { mode_of first.now ≡ Some pod.now.file.meta.mode }
    ensures ok { OnOk result (table.new ≡ with_pod table.old pod.now) }
{
    match table.add_pod(pod) {
        Ok(()) => Ok(()),
        Err(TableRefusal::NoMemory) => Err(AllocError),
        Err(TableRefusal::ModeClash { .. }) => unreachable!(),
    }
}

/// The table of pods, which are read in order.
pub fn table_of<F: Files>(
    alloc: Global,
    files: &mut F,
    pods: &[Pod],
    reading: &mut Reading,
) -> Result<Table, Refusal>
    requires { All HasTextPaths pods.now }
    ensures told { IfSome (F.tree files.old) (λ t. Gives (λ table. (table, reading.new)) result (table_from t pods.now reading.old)) }
    ensures mode { IfOk result (λ table. HasModeOf reading.new.first table.mode) }
    ensures first { OnOk result (KeepsMode reading.old.first reading.new.first) }
    ensures same { F.tree files.new ≡ F.tree files.old }
    ensures cause { CountsRead (F.read_faults files.old) (F.read_faults files.new) result }
    ensures puts { F.put_faults files.new ≡ F.put_faults files.old }
{
    let mut table = Table::new(alloc);
    for pod in pods {
        let read = read_pod(alloc, files, pod, reading)?;
        add_pod(&mut table, &read, &reading.first)?;
    }
    Ok(table)
}

/// The table of all pods of directories.
#[tactic(auto, unfolding(crate::specs::Command::table_in))]
pub fn table_of_dirs<F: Files>(
    alloc: Global,
    files: &mut F,
    dirs: &[Text],
) -> Result<Table, Refusal>
    requires { All IsName dirs.now }
    ensures told { IfSome (F.tree files.old) (λ t. Gives (λ table. table) result (table_in t dirs.now)) }
    ensures same { F.tree files.new ≡ F.tree files.old }
    ensures cause { CountsRead (F.read_faults files.old) (F.read_faults files.new) result }
    ensures puts { F.put_faults files.new ≡ F.put_faults files.old }
{
    let names = names_of(alloc, files, dirs)?;
    let pods = collect(alloc, &names)?;
    table_of(alloc, files, &pods, &mut Reading::new())
}

/// Reads pods in order.
pub fn read_pods<F: Files>(
    alloc: Global,
    files: &mut F,
    pods: &[Pod],
    reading: &mut Reading,
) -> Result<Vec<DecodedPod>, Refusal>
    requires { All HasTextPaths pods.now }
    ensures told { IfSome (F.tree files.old) (λ t. Gives (λ read. (read.items, reading.new)) result (pods_in t pods.now reading.old)) }
    ensures small { IfOk result (λ read. All HasFewUnits read.items) }
    ensures same { F.tree files.new ≡ F.tree files.old }
    ensures cause { CountsRead (F.read_faults files.old) (F.read_faults files.new) result }
    ensures puts { F.put_faults files.new ≡ F.put_faults files.old }
{
    let mut read = Vec::new(alloc);
    for pod in pods {
        read.push(read_pod(alloc, files, pod, reading)?)?;
    }
    Ok(read)
}

/// All pods of directories.
#[tactic(auto, unfolding(crate::specs::Command::all_pods))]
pub fn read_dirs<F: Files>(
    alloc: Global,
    files: &mut F,
    dirs: &[Text],
) -> Result<Vec<DecodedPod>, Refusal>
    requires { All IsName dirs.now }
    ensures told { IfSome (F.tree files.old) (λ t. Gives (λ read. read.items) result (all_pods t dirs.now)) }
    ensures small { IfOk result (λ read. All HasFewUnits read.items) }
    ensures same { F.tree files.new ≡ F.tree files.old }
    ensures cause { CountsRead (F.read_faults files.old) (F.read_faults files.new) result }
    ensures puts { F.put_faults files.new ≡ F.put_faults files.old }
{
    let names = names_of(alloc, files, dirs)?;
    let pods = collect(alloc, &names)?;
    read_pods(alloc, files, &pods, &mut Reading::new())
}
