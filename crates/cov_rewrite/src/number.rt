//! Numbers in a covered text.
ghost use Rattle.std.specs.Prelude.{◌≡◌, ◌++◌, ◌<◌, ◌^◌, OnOk, decimal};
ghost use Rattle.cov_rewrite.specs.Trailer.{hexadecimal};

use cov_outside::NoMemory;
use itoa::{Buffer, Integer};

/// Appends a number in decimal digits.
pub fn push_number<I: Integer>(text: &mut Vec<u8>, n: I) -> Result<(), NoMemory>
    ensures { OnOk result (text.new.items ≡ text.old.items ++ I.text n) }
{
    let mut buffer = Buffer::new();
    text.extend_from_slice(buffer.format(n).as_bytes())?;
    Ok(())
}

/// Appends a number in lower-case hexadecimal digits.
pub fn push_hexadecimal(text: &mut Vec<u8>, n: u32) -> Result<(), NoMemory>
    ensures { OnOk result (text.new.items ≡ text.old.items ++ hexadecimal n) }
{
    let digits = format!(in *text.allocator(); "{n:x}")?;
    text.extend_from_slice(digits.as_bytes())?;
    Ok(())
}
