//! Where text goes.
ghost use Rattle.std.specs.Prelude.{◌≡◌, ◌<◌, ◌≤◌, List, ℕ, Option, IfOk, IfErr, OnErr, length, take};
ghost use Rattle.std.specs.Io.KnownBytes.{append_known};
ghost use Rattle.cov_outside.specs.Faults.{Count, Counts};

use crate::fault::FilesFault;

/// A place that text is written to.
pub trait Sink {
    /// The bytes that were received, for an object that tells them.
    ghost contents: { Self → Option (List ℕ) };

    /// How often a write has failed.
    ghost faults: { Self → Count };

    /// Takes at least one byte of a piece that isn't empty. An `Err` took none.
    fn write(&mut self, piece: &[u8]) -> Result<usize, FilesFault>
        ensures bound { IfOk result (λ n. n ≤ length piece.now) }
        ensures some { IfOk result (λ n. 0 < length piece.now → 0 < n) }
        ensures bytes { IfOk result (λ n. contents self.new ≡ append_known (contents self.old) (take n piece.now)) }
        ensures err { OnErr result (contents self.new ≡ contents self.old) }
        ensures cause { Counts (faults self.old) (faults self.new) result };
}
