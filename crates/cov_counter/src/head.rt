//! The header of a counter file.
ghost use Rattle.std.specs.Prelude.{◌≡◌};
ghost use Rattle.cov_counter.specs.File.{Reads, Passes};
ghost use Rattle.cov_counter.specs.Head.{behind_magic, behind_version, flavour_at, flag_at, form_at, head_at};

use crate::fault::{CounterFault, at};
use crate::parts::read_parts;
use crate::source::Source;
use cov_outside::DataKind;

/// The bytes `00 63 77 6d`, as a number of which the lowest byte comes first.
pub const MAGIC: u32 = 0x6d776300;

/// What stands before the entries.
#[derive(Clone, Copy, Debug, PartialEq, Eq)]
pub struct Head {
    /// The hash of the meta file that the counters are for.
    pub hash: [u8; 16],
    /// 1: raw numbers of 4 bytes. 2: ULEB128 numbers.
    pub flavour: u8,
    /// Raw numbers have their highest byte first.
    pub big: bool,
    /// How many entries follow.
    pub entries: u64,
    /// How many pairs of strings the arguments are.
    pub args: u32,
}

#[tactic(auto, unfolding(crate::specs::Head::behind_magic))]
pub fn read_magic(source: &mut Source<'_>) -> Result<(), CounterFault>
    ensures { Passes source.old source.new result (behind_magic source.old.file source.old.at) }
{
    let offset = source.at();
    let magic = source.u32_le()?;
    if magic != MAGIC {
        return Err(at(offset, DataKind::BadMagic));
    }
    Ok(())
}

#[tactic(auto, unfolding(crate::specs::Head::behind_version))]
fn read_version(source: &mut Source<'_>) -> Result<(), CounterFault>
    ensures { Passes source.old source.new result (behind_version source.old.file source.old.at) }
{
    let offset = source.at();
    let version = source.u32_le()?;
    if version != 1 {
        return Err(at(offset, DataKind::BadVersion));
    }
    Ok(())
}

#[tactic(auto, unfolding(crate::specs::Head::flavour_at))]
fn read_flavour(source: &mut Source<'_>) -> Result<u8, CounterFault>
    ensures { Reads (λ n. n) source.old source.new result (flavour_at source.old.file source.old.at) }
{
    let offset = source.at();
    match source.u8()? {
        1 => Ok(1),
        2 => Ok(2),
        _ => Err(at(offset, DataKind::BadFlavour)),
    }
}

#[tactic(auto, unfolding(crate::specs::Head::flag_at))]
fn read_flag(source: &mut Source<'_>) -> Result<bool, CounterFault>
    ensures { Reads (λ b. b) source.old source.new result (flag_at source.old.file source.old.at) }
{
    let offset = source.at();
    match source.u8()? {
        0 => Ok(false),
        1 => Ok(true),
        _ => Err(at(offset, DataKind::BadFlag)),
    }
}

/// The flavour, and whether raw numbers have their highest byte first.
#[tactic(auto, unfolding(crate::specs::Head::form_at))]
fn read_form(source: &mut Source<'_>) -> Result<(u8, bool), CounterFault>
    ensures { Reads (λ f. f) source.old source.new result (form_at source.old.file source.old.at) }
{
    let flavour = read_flavour(source)?;
    let big = read_flag(source)?;
    source.take(6)?;
    Ok((flavour, big))
}

/// Reads all that stands before the entries.
#[tactic(auto, unfolding(crate::specs::Head::head_at))]
pub fn read_head(source: &mut Source<'_>) -> Result<Head, CounterFault>
    ensures { Reads (λ h. h) source.old source.new result (head_at source.old.file source.old.at) }
{
    read_magic(source)?;
    read_version(source)?;
    let hash = source.take16()?;
    let (flavour, big) = read_form(source)?;
    let entries = source.u64_le()?;
    let args = read_parts(source)?;
    Ok(Head {
        hash,
        flavour,
        big,
        entries,
        args,
    })
}
