//! A sink in memory, whose calls fail by their numbers.
ghost use Rattle.std.specs.Prelude.{◌≡◌, ◌<◌, ◌≤◌, Some, List, ℕ, [], IfOk, OnErr, Contains, IsErrOf, ◌↔◌, length, take};
ghost use Rattle.std.specs.Io.KnownBytes.{append_known};
ghost use Rattle.cov_outside.specs.Faults.{Counts};
ghost use Rattle.cov_outside.specs.Memory.{next_call, count_of};

use crate::fault::{FilesFault, NoMemory};
use crate::sink::Sink;
use std::alloc::Global;
use std::marker::Model;

#[derive(Debug, Drop)]
pub struct MemorySink {
    held: Vec<u8>,
    failing: Vec<u64>,
    calls: u64,
    faults: u64,
}

impl Model for MemorySink {
    ghost use Rattle.cov_outside.specs.Memory.{SinkState};

    ghost Value = { SinkState };

    ghost view = { λ s. record { held = s.held.items; failing = s.failing.items; calls = s.calls; faults = s.faults } };
}

impl MemorySink {
    /// The calls with these numbers fail, and no others.
    pub fn new(alloc: Global, failing: &[u64]) -> Result<MemorySink, NoMemory>
        ensures { IfOk result (λ sink. sink ≡ record { held = []; failing = failing.now; calls = 0; faults = 0 }) }
    {
        Ok(MemorySink {
            held: Vec::new(alloc),
            failing: Vec::from_slice(alloc, failing)?,
            calls: 0,
            faults: 0,
        })
    }

    pub fn bytes(&self) -> &[u8]
        ensures { result.now ≡ self.now.held }
    {
        &self.held
    }
}

impl Sink for MemorySink {
    ghost contents = { λ s. Some s.held };

    ghost faults = { λ s. count_of s.failing s.faults };

    fn write(&mut self, piece: &[u8]) -> Result<usize, FilesFault>
        ensures bound { IfOk result (λ n. n ≤ length piece.now) }
        ensures some { IfOk result (λ n. 0 < length piece.now → 0 < n) }
        ensures bytes { IfOk result (λ n. Some self.new.held ≡ append_known (Some self.old.held) (take n piece.now)) }
        ensures err { OnErr result (self.new.held ≡ self.old.held) }
        ensures cause { Counts (count_of self.old.failing self.old.faults) (count_of self.new.failing self.new.faults) result }

        // The calls with the listed numbers fail, and no others.
        ensures fails { IsErrOf result FilesFault.Failed ↔ Contains self.old.failing self.old.calls }
        ensures next { self.new.calls ≡ next_call self.old.calls }
        ensures failing { self.new.failing ≡ self.old.failing }
    {
        let call = self.calls;
        self.calls = call.saturating_add(1);
        if self.failing.contains(&call) {
            self.faults = self.faults.saturating_add(1);
            return Err(FilesFault::Failed);
        }
        self.held.extend_from_slice(piece)?;
        Ok(piece.len())
    }
}
