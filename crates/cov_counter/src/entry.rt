//! The counters of one function.
ghost use Rattle.std.specs.Prelude.{◌≡◌};
ghost use Rattle.cov_bytes.specs.Many.{many};
ghost use Rattle.cov_counter.specs.File.{Reads};
ghost use Rattle.cov_counter.specs.Entry.{number_at, length_at, entry_at};

use crate::fault::CounterFault;
use crate::head::Head;
use crate::source::Source;
use cov_outside::{Sequence, Which};
use std::alloc::Global;

/// How many counters an entry may have.
const MOST_COUNTERS: u32 = 1_048_576;

/// The counters of a function, one for each of its units.
#[derive(Debug, Drop)]
pub struct Entry {
    /// The number of the package, from 0.
    pub package: u32,
    /// The number of the function in its package, from 0.
    pub function: u32,
    /// How often each unit ran.
    pub counts: Sequence<u32>,
}

/// A number in the form that the header names.
#[tactic(auto, unfolding(crate::specs::Entry::number_at))]
fn read_number(source: &mut Source<'_>, head: &Head) -> Result<u32, CounterFault>
    ensures { Reads (λ n. n) source.old source.new result (number_at head.now source.old.file source.old.at) }
{
    if head.flavour == 2 {
        source.uleb()
    } else if head.big {
        source.u32_be()
    } else {
        source.u32_le()
    }
}

#[tactic(auto, unfolding(crate::specs::Entry::length_at))]
fn read_length(source: &mut Source<'_>, head: &Head) -> Result<u32, CounterFault>
    ensures { Reads (λ n. n) source.old source.new result (length_at head.now source.old.file source.old.at) }
{
    let length = read_number(source, head)?;
    if length > MOST_COUNTERS {
        return Err(CounterFault::Limit(Which::Units));
    }
    Ok(length)
}

fn read_counts(
    alloc: Global,
    source: &mut Source<'_>,
    head: &Head,
    length: u32,
) -> Result<Vec<u32>, CounterFault>
    ensures { Reads (λ v. v.items) source.old source.new result (many (number_at head.now source.old.file) length source.old.at) }
{
    let mut counts = Vec::new(alloc);
    for _ in 0..length {
        let count = read_number(source, head)?;
        counts.push(count)?;
    }
    Ok(counts)
}

#[tactic(auto, unfolding(crate::specs::Entry::entry_at))]
pub fn read_entry(
    alloc: Global,
    source: &mut Source<'_>,
    head: &Head,
) -> Result<Entry, CounterFault>
    ensures { Reads (λ e. e) source.old source.new result (entry_at head.now source.old.file source.old.at) }
{
    let length = read_length(source, head)?;
    let package = read_number(source, head)?;
    let function = read_number(source, head)?;
    let counts = read_counts(alloc, source, head, length)?;
    Ok(Entry {
        package,
        function,
        counts: Sequence::from_vec(counts),
    })
}
