//! The places of many offsets.
ghost use Rattle.std.specs.Prelude.{◌≡◌, ◌≤◌, ◌^◌, ◌+◌, ◌<◌, length, IfOk, List, ℕ, slice_index};
ghost use Rattle.go_ast.specs.Places.{line_starts, place_at};
ghost use Rattle.go_ast.specs.Starts.{AreStarts};

use crate::place::Place;
use crate::text::NoMemory;
use std::alloc::Global;
use std::marker::Model;

/// Where the lines of a text start. It answers places without reading the text again.
#[derive(Debug, Drop)]
pub struct Lines {
    starts: Vec<u32>,
}

impl Model for Lines {
    ghost use Rattle.std.specs.Prelude.{List, ℕ};
    ghost use Rattle.go_ast.specs.Starts.{AreStarts};

    ghost Value = { List ℕ };

    ghost view = { λ l. l.starts.items };

    ghost invariant = { λ l. AreStarts l.starts.items };
}

impl Lines {
    /// The lines of a text.
    pub fn new(alloc: Global, text: &[u8]) -> Result<Lines, NoMemory>
        requires { length text.now ≤ 2 ^ 31 }
        ensures { IfOk result (λ lines. lines ≡ line_starts text.now) }
    {
        Ok(Lines {
            starts: starts_of(alloc, text)?,
        })
    }

    /// The place of an offset of the text: its line and its column, which counts bytes, both from 1.
    pub fn place(&self, offset: usize) -> Place
        requires { offset ≤ 2 ^ 31 }
        ensures { (text : List ℕ) → self.now ≡ line_starts text → offset ≤ length text → result ≡ place_at text offset }
    {
        let line = lines_until(&self.starts, offset);
        let start = self.starts[line - 1] as usize;
        Place {
            line: line as u32,
            column: (offset - start + 1) as u32,
        }
    }
}

/// The offsets at which the lines of a text start.
fn starts_of(alloc: Global, text: &[u8]) -> Result<Vec<u32>, NoMemory>
    requires { length text.now ≤ 2 ^ 31 }
    ensures starts { IfOk result (λ starts. starts.items ≡ line_starts text.now) }
    ensures are { IfOk result (λ starts. AreStarts starts.items) }
{
    let mut starts = Vec::new(alloc);
    starts.push(0)?;
    for (at, byte) in text.iter().enumerate() {
        if *byte == b'\n' {
            starts.push(at as u32 + 1)?;
        }
    }
    Ok(starts)
}

/// How many lines start at an offset or before it.
fn lines_until(starts: &[u32], offset: usize) -> usize
    requires { AreStarts starts.now }
    ensures some { 0 < result }
    ensures within { result ≤ length starts.now }
    ensures before { (line : ℕ) → line < result → slice_index starts.now line ≤ offset }
    ensures after { (line : ℕ) → result ≤ line → line < length starts.now → offset < slice_index starts.now line }
{
    starts.partition_point(|start| *start as usize <= offset)
}
