//! Whole texts to a sink.
ghost use Rattle.std.specs.Prelude.{◌≡◌, ◌≤◌, ℕ, OnOk, OnErr, take, length};
ghost use Rattle.std.specs.Io.KnownBytes.{append_known};
ghost use Rattle.cov_outside.specs.Faults.{Counts, HasPrefix};

use crate::fault::FilesFault;
use crate::sink::Sink;

/// Writes all of a text. After an `Err` the sink has received a prefix of it.
pub fn write_whole<S: Sink>(sink: &mut S, text: &[u8]) -> Result<(), FilesFault>
    ensures ok { OnOk result (S.contents sink.new ≡ append_known (S.contents sink.old) text.now) }
    ensures err { OnErr result (HasPrefix (S.contents sink.old) (S.contents sink.new) text.now) }
    ensures cause { Counts (S.faults sink.old) (S.faults sink.new) result }
{
    let mut done = 0;
    while done < text.len() {
        let (_, rest) = text.split_at(done);
        let n = sink.write(rest)?;
        done += n;
    }
    Ok(())
}
