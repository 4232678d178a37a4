//! Offsets of pieces that follow each other, as they are written.
ghost use Rattle.std.specs.Prelude.{◌≡◌, ◌<◌, ◌+◌, ◌^◌, ◌++◌, flat_map, sum, OnOk};
ghost use Rattle.byteorder.specs.Endian.{little_bytes};
ghost use Rattle.cov_meta.specs.Written.{offsets_from};

use cov_bytes::Bytes;
use cov_outside::NoMemory;

/// Appends the offsets of pieces with these lengths as numbers of 4 bytes; the first stands at `start`.
pub fn push_short_offsets(bytes: &mut Bytes, start: u32, lengths: &[u32]) -> Result<(), NoMemory>
    requires { start + sum lengths.now < 2 ^ 32 }
    ensures { OnOk result (bytes.new
        ≡ bytes.old ++ flat_map (little_bytes 4) (offsets_from start lengths.now)) }
{
    let mut at = start;
    for length in lengths {
        bytes.push_u32(at)?;
        at += *length;
    }
    Ok(())
}

/// The same as numbers of 8 bytes.
pub fn push_offsets(bytes: &mut Bytes, start: u64, lengths: &[u64]) -> Result<(), NoMemory>
    requires { start + sum lengths.now < 2 ^ 64 }
    ensures { OnOk result (bytes.new
        ≡ bytes.old ++ flat_map (little_bytes 8) (offsets_from start lengths.now)) }
{
    let mut at = start;
    for length in lengths {
        bytes.push_u64(at)?;
        at += *length;
    }
    Ok(())
}

/// Appends numbers of 8 bytes.
pub fn push_numbers(bytes: &mut Bytes, numbers: &[u64]) -> Result<(), NoMemory>
    ensures { OnOk result (bytes.new ≡ bytes.old ++ flat_map (little_bytes 8) numbers.now) }
{
    for number in numbers {
        bytes.push_u64(*number)?;
    }
    Ok(())
}
