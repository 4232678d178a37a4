//! The command `gocov`.
#![tactic(auto)]

use cov_outside::{HostFiles, HostSink, OpenGate, Stamp};
use gocov_tools::{Journal, gocov};
use std::process::ExitCode;
use std::time::{SystemTime, UNIX_EPOCH};
use std::{env, io};

/// The words after the program's name.
fn words_of(rt: &HostRuntime) -> io::Result<Vec<String>> {
    Ok(env::args(rt)?.skip(1).collect(rt.alloc())?)
}

/// The nanoseconds since 1970, or 0 where the clock stands before.
fn nanos(rt: &HostRuntime) -> io::Result<u64> {
    let now = SystemTime::now(rt)?;
    match now.duration_since(UNIX_EPOCH) {
        Ok(since) => Ok(u64::try_from(since.as_nanos()).unwrap_or(u64::MAX)),
        Err(_) => Ok(0),
    }
}

fn main(rt: HostRuntime) -> io::Result<ExitCode> {
    let alloc = rt.alloc();
    let strings = words_of(&rt)?;
    let mut words = Vec::new(alloc);
    for string in &strings {
        words.push(string.as_str())?;
    }
    let mut files = HostFiles::new(&rt, alloc);
    let mut out = HostSink::new(rt.stdout());
    let mut err = HostSink::new(rt.stderr());
    let mut journal = Journal::new(alloc);
    let stamp = Stamp {
        pid: 1,
        nanos: nanos(&rt)?,
    };
    let status = gocov(
        &rt,
        alloc,
        &words,
        &mut files,
        &mut out,
        &mut err,
        stamp,
        &OpenGate,
        &mut journal,
    );
    Ok(ExitCode::from(status.code()))
}
