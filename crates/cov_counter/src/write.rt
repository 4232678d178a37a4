//! Writing counter files.
ghost use Rattle.std.specs.Prelude.{◌≡◌, ◌≤◌, ◌<◌, ◌^◌, ◌++◌, length, All, IfOk, OnOk};
ghost use Rattle.std.specs.List.{flat_map};
ghost use Rattle.cov_bytes.specs.Writing.{uleb_of};
ghost use Rattle.cov_counter.specs.Text.{head_text, entry_text, footer_text, counter_text, CanBeWritten};

use crate::entry::Entry;
use crate::head::MAGIC;
use cov_bytes::Bytes;
use cov_outside::NoMemory;
use std::alloc::Global;

/// The header, a table without strings, no arguments, and their padding.
fn push_head(bytes: &mut Bytes, hash: &[u8; 16], entries: u64) -> Result<(), NoMemory>
    ensures { OnOk result (bytes.new ≡ bytes.old ++ head_text hash.now entries) }
{
    bytes.push_u32(MAGIC)?;
    bytes.push_u32(1)?;
    bytes.push(hash)?;
    bytes.push(&[2, 0, 0, 0, 0, 0, 0, 0])?;
    bytes.push_u64(entries)?;
    bytes.push_u32(1)?;
    bytes.push_u32(3)?;
    bytes.push(&[0; 4])?;
    Ok(())
}

fn push_counts(bytes: &mut Bytes, counts: &[u32]) -> Result<(), NoMemory>
    ensures bytes { OnOk result (bytes.new ≡ bytes.old ++ flat_map uleb_of counts.now) }
    ensures small { OnOk result (All (λ n. n < 2 ^ 32) counts.now) }
{
    for count in counts {
        bytes.push_uleb(*count)?;
    }
    Ok(())
}

#[tactic(auto, unfolding(crate::specs::Text::entry_text))]
fn push_entry(bytes: &mut Bytes, entry: &Entry) -> Result<(), NoMemory>
    requires { length entry.now.counts ≤ 1048576 }
    ensures bytes { OnOk result (bytes.new ≡ bytes.old ++ entry_text entry.now) }
    ensures fits { OnOk result (CanBeWritten entry.now) }
{
    bytes.push_uleb(entry.counts.len() as u32)?;
    bytes.push_uleb(entry.package)?;
    bytes.push_uleb(entry.function)?;
    push_counts(bytes, entry.counts.as_slice())
}

fn push_entries(bytes: &mut Bytes, entries: &[Entry]) -> Result<(), NoMemory>
    requires { All (λ e. length e.counts ≤ 1048576) entries.now }
    ensures bytes { OnOk result (bytes.new ≡ bytes.old ++ flat_map entry_text entries.now) }
    ensures fits { OnOk result (All CanBeWritten entries.now) }
{
    for entry in entries {
        push_entry(bytes, entry)?;
    }
    Ok(())
}

fn push_footer(bytes: &mut Bytes) -> Result<(), NoMemory>
    ensures { OnOk result (bytes.new ≡ bytes.old ++ footer_text) }
{
    bytes.push_u32(MAGIC)?;
    bytes.push(&[0; 4])?;
    bytes.push_u32(1)?;
    bytes.push(&[0; 4])?;
    Ok(())
}

/// A counter file of one segment with ULEB128 numbers, without strings and arguments. Whatever was written can be
/// written: its numbers fit 32 bits.
#[tactic(auto, unfolding(crate::specs::Text::counter_text))]
pub fn write_counters(
    alloc: Global,
    hash: &[u8; 16],
    entries: &[Entry],
) -> Result<Vec<u8>, NoMemory>
    requires { All (λ e. length e.counts ≤ 1048576) entries.now }
    ensures bytes { IfOk result (λ v. v.items ≡ counter_text hash.now entries.now) }
    ensures fits { OnOk result (All CanBeWritten entries.now) }
{
    let mut bytes = Bytes::new(alloc);
    push_head(&mut bytes, hash, entries.len() as u64)?;
    push_entries(&mut bytes, entries)?;
    push_footer(&mut bytes)?;
    Ok(bytes.into_vec())
}
