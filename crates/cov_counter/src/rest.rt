//! What stands behind the last entry.
ghost use Rattle.std.specs.Prelude.{◌≡◌};
ghost use Rattle.cov_counter.specs.Each.{each};
ghost use Rattle.cov_counter.specs.File.{Passes, Gives};
ghost use Rattle.cov_counter.specs.Rest.{padding_in, behind_zero, behind_segments, behind_footer, behind_rest};

use crate::fault::{CounterFault, at};
use crate::head::read_magic;
use crate::source::Source;
use cov_outside::{DataKind, Which};

const FOOTER: usize = 16;

/// How many bytes stand before the footer, at most 3.
fn padding_length(source: &Source<'_>) -> Result<usize, CounterFault>
    ensures { Gives result (padding_in source.now.file source.now.at) }
{
    let length = source.left();
    if length >= FOOTER + 4 {
        return Err(at(source.at(), DataKind::Trailing));
    }
    if source.more() {
        return Err(CounterFault::Limit(Which::DataBytes));
    }
    if length < FOOTER {
        return Err(at(source.at(), DataKind::Short));
    }
    Ok(length - FOOTER)
}

#[tactic(auto, unfolding(crate::specs::Rest::behind_zero))]
fn skip_zero(source: &mut Source<'_>) -> Result<(), CounterFault>
    ensures { Passes source.old source.new result (behind_zero source.old.file source.old.at) }
{
    let offset = source.at();
    let byte = source.u8()?;
    if byte != 0 {
        return Err(at(offset, DataKind::BadPadding));
    }
    Ok(())
}

fn skip_zeros(source: &mut Source<'_>, length: usize) -> Result<(), CounterFault>
    ensures { Passes source.old source.new result (each (behind_zero source.old.file) length source.old.at) }
{
    for _ in 0..length {
        skip_zero(source)?;
    }
    Ok(())
}

#[tactic(auto, unfolding(crate::specs::Rest::behind_segments))]
fn read_segments(source: &mut Source<'_>) -> Result<(), CounterFault>
    ensures { Passes source.old source.new result (behind_segments source.old.file source.old.at) }
{
    let offset = source.at();
    let count = source.u32_le()?;
    if count != 1 {
        return Err(at(offset, DataKind::Segments { count }));
    }
    Ok(())
}

#[tactic(auto, unfolding(crate::specs::Rest::behind_footer))]
fn read_footer(source: &mut Source<'_>) -> Result<(), CounterFault>
    ensures { Passes source.old source.new result (behind_footer source.old.file source.old.at) }
{
    read_magic(source)?;
    source.take(4)?;
    read_segments(source)?;
    source.take(4)?;
    Ok(())
}

/// Reads zeros and the footer, which end the file.
#[tactic(auto, unfolding(crate::specs::Rest::behind_rest))]
pub fn read_rest(source: &mut Source<'_>) -> Result<(), CounterFault>
    ensures { Passes source.old source.new result (behind_rest source.old.file source.old.at) }
{
    let length = padding_length(source)?;
    skip_zeros(source, length)?;
    read_footer(source)
}
