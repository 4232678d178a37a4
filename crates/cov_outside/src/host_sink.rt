//! A sink over a writer of std. It tells no content.
ghost use Rattle.std.specs.Prelude.{None};
ghost use Rattle.cov_outside.specs.Faults.{times};

use crate::fault::FilesFault;
use crate::sink::Sink;
use std::io::Write;

#[derive(Drop)]
pub struct HostSink<W> {
    writer: W,
    faults: u64,
}

impl<W: Write> HostSink<W> {
    pub fn new(writer: W) -> HostSink<W> {
        HostSink { writer, faults: 0 }
    }
}

impl<W: Write> Sink for HostSink<W> {
    ghost contents = { λ _. None };

    ghost faults = { λ s. times s.faults };

    fn write(&mut self, piece: &[u8]) -> Result<usize, FilesFault> {
        match self.writer.write(piece) {
            Ok(n) if n > 0 || piece.is_empty() => Ok(n),
            _ => {
                self.faults = self.faults.saturating_add(1);
                Err(FilesFault::Failed)
            }
        }
    }
}
