//! The string table and the arguments of a counter file.
ghost use Rattle.std.specs.Prelude.{◌≡◌};
ghost use Rattle.cov_counter.specs.Each.{each};
ghost use Rattle.cov_counter.specs.File.{Reads, Passes};
ghost use Rattle.cov_counter.specs.Parts.{behind_string, strings_at, behind_index, behind_pair, pairs_at, table_at, args_at, behind_padding, parts_at};

use crate::fault::{CounterFault, at};
use crate::source::Source;
use cov_outside::DataKind;

#[tactic(auto, unfolding(crate::specs::Parts::behind_string))]
fn skip_string(table: &mut Source<'_>) -> Result<(), CounterFault>
    ensures { Passes table.old table.new result (behind_string table.old.file table.old.at) }
{
    let length = table.uleb()?;
    table.take(length as usize)?;
    Ok(())
}

fn skip_strings(table: &mut Source<'_>, count: u32) -> Result<(), CounterFault>
    ensures { Passes table.old table.new result (each (behind_string table.old.file) count table.old.at) }
{
    for _ in 0..count {
        skip_string(table)?;
    }
    Ok(())
}

/// How many strings a table has. Each is read, and none is kept.
#[tactic(auto, unfolding(crate::specs::Parts::strings_at))]
fn count_strings(table: &mut Source<'_>) -> Result<u32, CounterFault>
    ensures { Reads (λ n. n) table.old table.new result (strings_at table.old.file table.old.at) }
{
    let count = table.uleb()?;
    skip_strings(table, count)?;
    Ok(count)
}

#[tactic(auto, unfolding(crate::specs::Parts::behind_index))]
fn skip_index(args: &mut Source<'_>, strings: u32) -> Result<(), CounterFault>
    ensures { Passes args.old args.new result (behind_index strings args.old.file args.old.at) }
{
    let offset = args.at();
    let index = args.uleb()?;
    if index >= strings {
        return Err(at(
            offset,
            DataKind::BadString {
                index,
                count: strings,
            },
        ));
    }
    Ok(())
}

#[tactic(auto, unfolding(crate::specs::Parts::behind_pair))]
fn skip_pair(args: &mut Source<'_>, strings: u32) -> Result<(), CounterFault>
    ensures { Passes args.old args.new result (behind_pair strings args.old.file args.old.at) }
{
    skip_index(args, strings)?;
    skip_index(args, strings)
}

fn skip_pairs(args: &mut Source<'_>, strings: u32, count: u32) -> Result<(), CounterFault>
    ensures { Passes args.old args.new result (each (behind_pair strings args.old.file) count args.old.at) }
{
    for _ in 0..count {
        skip_pair(args, strings)?;
    }
    Ok(())
}

/// How many pairs the arguments are.
#[tactic(auto, unfolding(crate::specs::Parts::pairs_at))]
fn count_pairs(args: &mut Source<'_>, strings: u32) -> Result<u32, CounterFault>
    ensures { Reads (λ n. n) args.old args.new result (pairs_at strings args.old.file args.old.at) }
{
    let count = args.uleb()?;
    skip_pairs(args, strings, count)?;
    Ok(count)
}

#[tactic(auto, unfolding(crate::specs::Parts::table_at))]
fn read_table(source: &mut Source<'_>, length: u32) -> Result<u32, CounterFault>
    ensures { Reads (λ n. n) source.old source.new result (table_at length source.old.file source.old.at) }
{
    let mut table = source.part(length)?;
    count_strings(&mut table)
}

#[tactic(auto, unfolding(crate::specs::Parts::args_at))]
fn read_args(source: &mut Source<'_>, strings: u32, length: u32) -> Result<u32, CounterFault>
    ensures { Reads (λ n. n) source.old source.new result (args_at strings length source.old.file source.old.at) }
{
    let mut args = source.part(length)?;
    count_pairs(&mut args, strings)
}

/// The bytes up to the next offset that is a multiple of 4.
#[tactic(auto, unfolding(crate::specs::Parts::behind_padding))]
fn skip_padding(source: &mut Source<'_>) -> Result<(), CounterFault>
    ensures { Passes source.old source.new result (behind_padding source.old.file source.old.at) }
{
    let missing = (4 - source.at() % 4) % 4;
    source.take(missing)?;
    Ok(())
}

/// Reads both parts, and gives the number of pairs.
#[tactic(auto, unfolding(crate::specs::Parts::parts_at))]
pub fn read_parts(source: &mut Source<'_>) -> Result<u32, CounterFault>
    ensures { Reads (λ n. n) source.old source.new result (parts_at source.old.file source.old.at) }
{
    let table_length = source.u32_le()?;
    let args_length = source.u32_le()?;
    let strings = read_table(source, table_length)?;
    let pairs = read_args(source, strings, args_length)?;
    skip_padding(source)?;
    Ok(pairs)
}
