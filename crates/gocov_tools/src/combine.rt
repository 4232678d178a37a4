//! `subtract` and `intersect`: a pod with the units of the first directory.
ghost use Rattle.std.specs.Prelude.{◌≡◌, ◌≤◌, IfOk, IfSome, All, is_some, true, length};
ghost use Rattle.cov_pods.specs.Paths.{HasTextDir};
ghost use Rattle.cov_table.specs.PodOf.{pod_of};
ghost use Rattle.cov_table.specs.Refusal.{Agree};
ghost use Rattle.gocov_tools.specs.Combine.{HasShortEntries, files_of, files_in};
ghost use Rattle.gocov_tools.specs.Command.{combined, combined_table, two_tables};
ghost use Rattle.gocov_tools.specs.Outside.{CountsRead};
ghost use Rattle.gocov_tools.specs.Refusals.{Decides, Gives};

use crate::listing::names_of;
use crate::measure::{measure, within};
use crate::operation::{Operation, operate};
use crate::pod_files::push_pod;
use crate::pods::table_of;
use crate::reading::Reading;
use crate::refusal::Refusal;
use crate::work::{PutFile, Work};
use cov_counter::write_counters;
use cov_meta::write_meta;
use cov_outside::{Files, Sequence, Stamp, Which};
use cov_pods::{DirNames, collect};
use cov_table::{PodOut, Table};
use gocov_words::DataArgs;
use std::alloc::Global;

/// The tables of two directories. The pods of the first are read first.
#[tactic(auto, unfolding(crate::specs::Command::two_tables))]
fn two_tables<F: Files>(
    alloc: Global,
    files: &mut F,
    names: &[DirNames],
) -> Result<(Table, Table), Refusal>
    requires utf8 { All HasTextDir names.now }
    requires some { 1 ≤ length names.now }
    ensures told { IfSome (F.tree files.old) (λ t. Gives (λ tables. tables) result (two_tables t names.now)) }
    ensures agree { IfOk result (λ tables. Agree tables.0.mode tables.1.mode) }
    ensures same { F.tree files.new ≡ F.tree files.old }
    ensures cause { CountsRead (F.read_faults files.old) (F.read_faults files.new) result }
    ensures puts { F.put_faults files.new ≡ F.put_faults files.old }
{
    let (first, second) = names.split_at(1);
    let mut reading = Reading::new();
    let pods = collect(alloc, first)?;
    let table = table_of(alloc, files, &pods, &mut reading)?;
    let others = collect(alloc, second)?;
    let other = table_of(alloc, files, &others, &mut reading)?;
    Ok((table, other))
}

/// The table of the first directory, once the counts of the second were taken into account.
#[tactic(auto, unfolding(crate::specs::Command::combined_table))]
fn table_of_two<F: Files>(
    alloc: Global,
    files: &mut F,
    names: &[DirNames],
    operation: Operation,
) -> Result<Table, Refusal>
    requires utf8 { All HasTextDir names.now }
    requires some { 1 ≤ length names.now }
    ensures told { IfSome (F.tree files.old) (λ t. Gives (λ table. table) result (combined_table operation t names.now)) }
    ensures same { F.tree files.new ≡ F.tree files.old }
    ensures cause { CountsRead (F.read_faults files.old) (F.read_faults files.new) result }
    ensures puts { F.put_faults files.new ≡ F.put_faults files.old }
{
    let (mut table, other) = two_tables(alloc, files, names)?;
    operate(operation, &mut table, &other)?;
    Ok(table)
}

/// The files of a pod in a directory. Each limit on them is looked at before anything is written.
#[tactic(auto, unfolding(crate::specs::Combine::files_of))]
fn pod_puts(
    alloc: Global,
    dir: &str,
    stamp: Stamp,
    pod: &PodOut,
) -> Result<Sequence<PutFile>, Refusal>
    requires { HasShortEntries pod.now }
    ensures { Decides (λ puts. puts) result (files_of dir.now stamp pod.now) }
{
    measure(alloc, &pod.meta)?;
    let written = write_meta(alloc, &pod.meta)?;
    within(Which::DataBytes, written.bytes.len() as u64)?;
    let counters = write_counters(alloc, &written.hash, pod.entries.as_slice())?;
    within(Which::DataBytes, counters.len() as u64)?;
    let hash = hex::encode(alloc, written.hash.as_slice())?;
    let mut puts = Sequence::new(alloc);
    push_pod(
        alloc,
        &mut puts,
        dir,
        hash.as_str(),
        stamp,
        Sequence::from_vec(written.bytes),
        Sequence::from_vec(counters),
    )?;
    Ok(puts)
}

/// The files of a table's pod in a directory; none where the table is empty.
fn table_puts(
    alloc: Global,
    dir: &str,
    stamp: Stamp,
    table: &Table,
) -> Result<Sequence<PutFile>, Refusal>
    ensures { Decides (λ puts. puts) result (files_in dir.now stamp (pod_of table.now)) }
{
    match table.to_pod(alloc)? {
        None => Ok(Sequence::new(alloc)),
        Some(pod) => pod_puts(alloc, dir, stamp, &pod),
    }
}

/// One pod with the units of the first of two directories.
#[tactic(auto, unfolding(crate::specs::Command::combined))]
pub fn combine_work<F: Files>(
    alloc: Global,
    operation: Operation,
    args: &DataArgs,
    files: &mut F,
    stamp: Stamp,
) -> Result<Work, Refusal>
    requires { is_some args.now.out ≡ true }
    ensures told { IfSome (F.tree files.old) (λ t. Gives (λ work. work) result (combined operation stamp args.now t)) }
    ensures same { F.tree files.new ≡ F.tree files.old }
    ensures cause { CountsRead (F.read_faults files.old) (F.read_faults files.new) result }
    ensures puts { F.put_faults files.new ≡ F.put_faults files.old }
{
    let Some(dir) = &args.out else { unreachable!() };
    let names = names_of(alloc, files, args.dirs.as_slice())?;
    let table = table_of_two(alloc, files, &names, operation)?;
    let puts = table_puts(alloc, dir.as_str(), stamp, &table)?;
    Ok(Work {
        text: Sequence::new(alloc),
        puts,
    })
}
