//! Numbers in a report.
ghost use Rattle.std.specs.Prelude.{◌≡◌, ◌++◌, OnOk};

use cov_outside::NoMemory;
use itoa::{Buffer, Integer};

/// Appends a number in decimal digits.
pub fn push_number<I: Integer>(text: &mut Vec<u8>, n: I) -> Result<(), NoMemory>
    ensures { OnOk result (text.new.items ≡ text.old.items ++ I.text n) }
{
    let mut buffer = Buffer::new();
    text.extend_from_slice(buffer.format(n).as_bytes())?;
    Ok(())
}
