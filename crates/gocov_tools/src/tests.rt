//! Whole commands over files in memory: words in, files and texts out.
mod cuts;
mod faults;
mod hostile;
mod rows;
mod written;

use super::*;
use cov_outside::{MemoryFiles, MemorySink, NoMemory, OpenGate, Stamp};
use std::alloc::Global;
use std::sync::Wait;
use std::thread::Threads;

/// A meta file of one function with three units, in mode set.
const META: &[u8; 183] =
    b"\x00cvm\x01\x00\x00\x00\xb7\x00\x00\x00\x00\x00\x00\x00\x01\x00\x00\x00\x00\x00\x00\x00\
\x11\x11\x11\x11\x11\x11\x11\x11\x11\x11\x11\x11\x11\x11\x11\x11H\x00\x00\x00\x02\x00\x00\x00\x01\x01\x00\x00\x00\x00\x00\x00\
J\x00\x00\x00\x00\x00\x00\x00m\x00\x00\x00\x00\x00\x00\x00\x01\x00m\x00\x00\x00\x00\x00\x00\x00\x01\x00\x00\x00\x01\x00\x00\x00\
\"\"\"\"\"\"\"\"\"\"\"\"\"\"\"\"\x00\x00\x00\x00\x03\x00\x00\x00\x01\x00\x00\x00Z\x00\x00\x00\
\x03\x04main\x0dexample.com/m\x15example.com/m/main.go\x03\x00\x02\x05\x0d\x07\x0b\x02\x07\x0b\x09\x03\x01\x09\x08\x0b\x03\x01\x00";

/// Its counter file: counts 1, 1, 0.
const COUNTERS: &[u8; 74] =
    b"\x00cwm\x01\x00\x00\x00\x11\x11\x11\x11\x11\x11\x11\x11\x11\x11\x11\x11\x11\x11\x11\x11\
\x02\x00\x00\x00\x00\x00\x00\x00\x01\x00\x00\x00\x00\x00\x00\x00\x01\x00\x00\x00\x03\x00\x00\x00\x00\x00\x00\x00\
\x03\x00\x00\x01\x01\x00\x00cwm\x00\x00\x00\x00\x01\x00\x00\x00\x00\x00\x00\x00";

const META_PATH: &str = "c/covmeta.11111111111111111111111111111111";

const COUNTERS_PATH: &str = "c/covcounters.11111111111111111111111111111111.1.1";

const PROFILE: &str = "mode: set\n\
example.com/m/main.go:5.13,7.11 2 1\n\
example.com/m/main.go:7.11,9.3 1 1\n\
example.com/m/main.go:9.8,11.3 1 0\n";

/// What a call of `gocov` answers and writes.
#[derive(Drop)]
struct Outcome {
    code: u8,
    out: Vec<u8>,
    line: Vec<u8>,
}

/// The calls of the sinks that fail, by their numbers from 0.
#[derive(Clone, Copy)]
struct Failing<'a> {
    out: &'a [u64],
    err: &'a [u64],
}

const NONE: Failing<'static> = Failing { out: &[], err: &[] };

/// Directory `c` with the pod, whose files are given, and a file that is none of a pod.
fn pod_of(
    alloc: Global,
    meta: &[u8],
    counters: &[u8],
    failing: &[u64],
) -> Result<MemoryFiles, NoMemory> {
    let mut files = MemoryFiles::new(alloc, failing)?;
    files.add(META_PATH, meta)?;
    files.add(COUNTERS_PATH, counters)?;
    files.add("c/other", b"")?;
    Ok(files)
}

/// A copy of a file with one of its bytes changed.
fn changed(alloc: Global, bytes: &[u8], at: usize, byte: u8) -> Result<Vec<u8>, NoMemory> {
    let mut copy = Vec::from_slice(alloc, bytes)?;
    if let Some(place) = copy.get_mut(at) {
        *place = byte;
    }
    Ok(copy)
}

/// Calls `gocov` with the words of a line, which are divided by spaces.
fn call<R: Threads + Wait + Sync>(
    rt: &R,
    alloc: Global,
    line: &str,
    files: &mut MemoryFiles,
    failing: Failing<'_>,
) -> Result<Outcome, NoMemory> {
    let mut words = Vec::new(alloc);
    for word in line.split(' ') {
        words.push(word)?;
    }
    call_words(rt, alloc, &words, files, failing)
}

fn call_words<R: Threads + Wait + Sync>(
    rt: &R,
    alloc: Global,
    words: &[&str],
    files: &mut MemoryFiles,
    failing: Failing<'_>,
) -> Result<Outcome, NoMemory> {
    let mut out = MemorySink::new(alloc, failing.out)?;
    let mut err = MemorySink::new(alloc, failing.err)?;
    let mut journal = Journal::new(alloc);
    let stamp = Stamp { pid: 7, nanos: 9 };
    let status = gocov(
        rt,
        alloc,
        words,
        files,
        &mut out,
        &mut err,
        stamp,
        &OpenGate,
        &mut journal,
    );
    Ok(Outcome {
        code: status.code(),
        out: Vec::from_slice(alloc, out.bytes())?,
        line: Vec::from_slice(alloc, err.bytes())?,
    })
}
