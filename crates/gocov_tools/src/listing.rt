//! The directories of a command.
ghost use Rattle.std.specs.Prelude.{◌≡◌, All, IfOk, IfErr, IfSome, nat_le, ◌≤◌, count_by, length};
ghost use Rattle.std.specs.Str.{IsUtf8};
ghost use Rattle.gocov_words.specs.Texts.{IsName};
ghost use Rattle.cov_pods.specs.Paths.{HasTextDir};
ghost use Rattle.gocov_tools.specs.Listing as spec;
ghost use Rattle.gocov_tools.specs.Listing.{dir_in, dirs_in, data_files, data_files_in, listing};
ghost use Rattle.gocov_tools.specs.Outside.{CountsRead};
ghost use Rattle.gocov_tools.specs.Refusals.{Gives, IsFaultOrMemory};

use crate::refusal::Refusal;
use cov_outside::{Files, Sequence, Text, Which};
use cov_pods::{DirNames, counter_hash, meta_hash};
use std::alloc::Global;

/// The most meta and counter files that a command reads.
const MOST_DATA_FILES: usize = 65_536;

/// Whether a name is that of a meta file or a counter file.
fn is_data_name(name: &[u8]) -> bool
    ensures { result ≡ spec.is_data_name name.now }
{
    meta_hash(name).is_some() || counter_hash(name).is_some()
}

/// How many of the names are those of meta and counter files.
fn data_files_of(names: &[Text]) -> usize
    ensures count { result ≡ count_by spec.is_data_name names.now }
    ensures bound { result ≤ length names.now }
{
    names
        .iter()
        .filter(|name| is_data_name(name.bytes()))
        .count()
}

/// Whether there are not too many meta and counter files.
fn are_few(dirs: &[DirNames]) -> bool
    ensures { result ≡ nat_le (data_files dirs.now) 65536 }
{
    let mut left = MOST_DATA_FILES;
    for dir in dirs {
        let files = data_files_of(dir.names.as_slice());
        if left < files {
            return false;
        }
        left -= files;
    }
    true
}

/// A directory with the names of its files.
fn list_dir<F: Files>(alloc: Global, files: &mut F, dir: &Text) -> Result<DirNames, Refusal>
    requires { IsUtf8 dir.now }
    ensures utf8 { IfOk result HasTextDir }
    ensures told { IfSome (F.tree files.old) (λ t. IfOk result (λ names. names ≡ dir_in t dir.now)) }
    ensures refused { IfErr result IsFaultOrMemory }
    ensures same { F.tree files.new ≡ F.tree files.old }
    ensures cause { CountsRead (F.read_faults files.old) (F.read_faults files.new) result }
    ensures puts { F.put_faults files.new ≡ F.put_faults files.old }
{
    let names = files.list(alloc, dir.as_str())?;
    let dir = dir.clone()?;
    let names = Sequence::from_vec(names);
    Ok(DirNames { dir, names })
}

/// Directories with the names of their files, in order.
fn list_dirs<F: Files>(
    alloc: Global,
    files: &mut F,
    dirs: &[Text],
) -> Result<Vec<DirNames>, Refusal>
    requires { All IsName dirs.now }
    ensures utf8 { IfOk result (λ names. All HasTextDir names.items) }
    ensures count { IfOk result (λ names. length names.items ≡ length dirs.now) }
    ensures told { IfSome (F.tree files.old) (λ t. IfOk result (λ names. names.items ≡ dirs_in t dirs.now)) }
    ensures refused { IfErr result IsFaultOrMemory }
    ensures same { F.tree files.new ≡ F.tree files.old }
    ensures cause { CountsRead (F.read_faults files.old) (F.read_faults files.new) result }
    ensures puts { F.put_faults files.new ≡ F.put_faults files.old }
{
    let mut names = Vec::new(alloc);
    for dir in dirs {
        names.push(list_dir(alloc, files, dir)?)?;
    }
    Ok(names)
}

/// The names in directories, among which there are at most 65,536 of meta and counter files.
#[tactic(auto, unfolding(crate::specs::Listing::listing))]
pub fn names_of<F: Files>(
    alloc: Global,
    files: &mut F,
    dirs: &[Text],
) -> Result<Vec<DirNames>, Refusal>
    requires { All IsName dirs.now }
    ensures utf8 { IfOk result (λ names. All HasTextDir names.items) }
    ensures count { IfOk result (λ names. length names.items ≡ length dirs.now) }
    ensures told { IfSome (F.tree files.old) (λ t. Gives (λ names. names.items) result (listing t dirs.now)) }
    ensures same { F.tree files.new ≡ F.tree files.old }
    ensures cause { CountsRead (F.read_faults files.old) (F.read_faults files.new) result }
    ensures puts { F.put_faults files.new ≡ F.put_faults files.old }
{
    let names = list_dirs(alloc, files, dirs)?;
    if are_few(&names) {
        Ok(names)
    } else {
        Err(Refusal::Limit(Which::DataFiles))
    }
}
