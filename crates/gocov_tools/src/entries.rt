//! Entries of counter files.
ghost use Rattle.std.specs.Prelude.{◌≡◌, ◌++◌, ◌==◌, not, IfOk, OnOk};
ghost use Rattle.std.specs.List.{list_any};
ghost use Rattle.cov_table.specs.PodOf.{entry_out, entries_of, entries_out};

use cov_counter::Entry;
use cov_outside::{NoMemory, Sequence};
use std::alloc::{AllocError, Global};

/// The number of a package or a function in an entry.
fn number(i: usize) -> Result<u32, NoMemory>
    ensures { IfOk result (λ n. n ≡ i) }
{
    match u32::try_from(i) {
        Ok(n) => Ok(n),
        Err(_) => Err(AllocError),
    }
}

/// Whether a counter isn't 0.
fn has_run(counts: &[u32]) -> bool
    ensures { result ≡ list_any (λ n. not (n == 0)) counts.now }
{
    counts.iter().any(|n| *n != 0)
}

/// Appends the entry of a function, if a counter isn't 0.
fn push_entry(
    alloc: Global,
    entries: &mut Vec<Entry>,
    place: u32,
    function: u32,
    counts: &[u32],
) -> Result<(), NoMemory>
    ensures { OnOk result (entries.new.items ≡ entries.old.items ++ entry_out place (function, counts.now)) }
{
    if !has_run(counts) {
        return Ok(());
    }
    let counts = Sequence::from_vec(Vec::from_slice(alloc, counts)?);
    entries.push(Entry {
        package: place,
        function,
        counts,
    })?;
    Ok(())
}

/// Appends the entries of a package.
fn push_package(
    alloc: Global,
    entries: &mut Vec<Entry>,
    place: u32,
    functions: &[Sequence<u32>],
) -> Result<(), NoMemory>
    ensures { OnOk result (entries.new.items ≡ entries.old.items ++ entries_of (place, functions.now)) }
{
    for (i, counts) in functions.iter().enumerate() {
        push_entry(alloc, entries, place, number(i)?, counts.as_slice())?;
    }
    Ok(())
}

/// The entries of a counter file with these counts, by package and function.
pub fn entries_from(
    alloc: Global,
    counts: &[Sequence<Sequence<u32>>],
) -> Result<Vec<Entry>, NoMemory>
    ensures { IfOk result (λ entries. entries.items ≡ entries_out counts.now) }
{
    let mut entries = Vec::new(alloc);
    for (i, functions) in counts.iter().enumerate() {
        push_package(alloc, &mut entries, number(i)?, functions.as_slice())?;
    }
    Ok(entries)
}
