//! Whole calls over files in memory: words and a source in, an answer, its line and a covered text out.
mod faults;
mod limits;
mod refusals;
mod texts;
mod usage;

use cov_outside::{MemoryFiles, MemorySink, NoMemory, OpenGate, Stamp};
use gocov_tools::{Journal, gocov};
use std::alloc::Global;
use std::sync::Wait;
use std::thread::Threads;

const ONE_FUNCTION: &str = "package p\n\nfunc f() {}\n";

/// What a call of `gocov` answers, and its line.
#[derive(Drop)]
struct Outcome {
    code: u8,
    line: Vec<u8>,
}

/// A source `a.go`, and a file beside it.
fn files_of(alloc: Global, text: &[u8], failing: &[u64]) -> Result<MemoryFiles, NoMemory> {
    let mut files = MemoryFiles::new(alloc, failing)?;
    files.add("a.go", text)?;
    files.add("other", b"as it is")?;
    Ok(files)
}

/// Calls `gocov` with the words of a line, which are divided by spaces. The calls of `err` with these numbers fail.
fn call<R: Threads + Wait + Sync>(
    rt: &R,
    alloc: Global,
    line: &str,
    files: &mut MemoryFiles,
    failing: &[u64],
) -> Result<Outcome, NoMemory> {
    let mut words = Vec::new(alloc);
    for word in line.split(' ') {
        words.push(word)?;
    }
    let mut out = MemorySink::new(alloc, &[])?;
    let mut err = MemorySink::new(alloc, failing)?;
    let mut journal = Journal::new(alloc);
    let stamp = Stamp { pid: 7, nanos: 9 };
    let status = gocov(
        rt,
        alloc,
        &words,
        files,
        &mut out,
        &mut err,
        stamp,
        &OpenGate,
        &mut journal,
    );
    Ok(Outcome {
        code: status.code(),
        line: Vec::from_slice(alloc, err.bytes())?,
    })
}
