//! The real files. They tell no tree.
ghost use Rattle.std.specs.Prelude.{◌≡◌, ◌≤◌, None, All, IfOk, IfSome, OnOk, length};
ghost use Rattle.std.specs.Str.{IsUtf8};
ghost use Rattle.cov_outside.specs.Faults.{times};

use crate::fault::{Failed, FilesFault, NoMemory};
use crate::files::Files;
use crate::text::Text;
use std::alloc::Global;
use std::io::{ErrorKind, Read, Seek, SeekFrom};
use std::{fs, io, rt};

/// The files of the system, with a number for each kind of fault that rises at each fault.
#[derive(Drop)]
pub struct HostFiles<'a, R: rt::Files> {
    rt: &'a R,
    alloc: Global,
    reads: u64,
    puts: u64,
}

impl<'a, R: rt::Files> HostFiles<'a, R> {
    pub fn new(rt: &'a R, alloc: Global) -> HostFiles<'a, R> {
        HostFiles {
            rt,
            alloc,
            reads: 0,
            puts: 0,
        }
    }
}

impl<R: rt::Files> Files for HostFiles<'_, R> {
    ghost tree = { λ _. None };

    ghost read_faults = { λ f. times f.reads };

    ghost put_faults = { λ f. times f.puts };

    fn list(&mut self, alloc: Global, dir: &str) -> Result<Vec<Text>, FilesFault> {
        match names_of(self.rt, alloc, dir) {
            Ok(names) => Ok(names),
            Err(FilesFault::NoMemory) => Err(FilesFault::NoMemory),
            Err(FilesFault::Failed) => {
                self.reads = self.reads.saturating_add(1);
                Err(FilesFault::Failed)
            }
        }
    }

    fn read_at(&mut self, path: &str, at: u64, buf: &mut [u8]) -> Result<Option<usize>, Failed> {
        match read_from(self.rt, path, at, buf) {
            Ok(n) => Ok(Some(n)),
            Err(e) if e.kind() == ErrorKind::NotFound => Ok(None),
            Err(_) => {
                self.reads = self.reads.saturating_add(1);
                Err(Failed)
            }
        }
    }

    fn put(&mut self, path: &str, bytes: &[u8]) -> Result<(), FilesFault> {
        match write_to(self.rt, self.alloc, path, bytes) {
            Ok(()) => Ok(()),
            Err(FilesFault::NoMemory) => Err(FilesFault::NoMemory),
            Err(FilesFault::Failed) => {
                self.puts = self.puts.saturating_add(1);
                Err(FilesFault::Failed)
            }
        }
    }

    fn make_dir(&mut self, dir: &str) -> Result<(), FilesFault> {
        match fs::create_dir_all(self.rt, dir).map_err(fault_of) {
            Ok(()) => Ok(()),
            Err(FilesFault::NoMemory) => Err(FilesFault::NoMemory),
            Err(FilesFault::Failed) => {
                self.puts = self.puts.saturating_add(1);
                Err(FilesFault::Failed)
            }
        }
    }
}

fn fault_of(e: io::Error) -> FilesFault {
    if e.kind() == ErrorKind::OutOfMemory {
        FilesFault::NoMemory
    } else {
        FilesFault::Failed
    }
}

fn read_from<R: rt::Files>(rt: &R, path: &str, at: u64, buf: &mut [u8]) -> io::Result<usize>
    ensures { IfOk result (λ n. n ≤ length buf.new) }
{
    let mut file = fs::open(rt, path)?;
    file.seek(SeekFrom::Start(at))?;
    file.read(buf)
}

/// Whether a path names something that isn't a plain file, as a device or a link: that is written in place.
fn is_special<R: rt::Files>(rt: &R, path: &str) -> bool {
    match fs::symlink_metadata(rt, path) {
        Ok(found) => !found.is_file(),
        Err(_) => false,
    }
}

/// Replaces a file as a whole: the bytes are written beside it, and the new file is then given its name.
fn write_to<R: rt::Files>(
    rt: &R,
    alloc: Global,
    path: &str,
    bytes: &[u8],
) -> Result<(), FilesFault> {
    if is_special(rt, path) {
        return fs::write(rt, path, bytes).map_err(fault_of);
    }
    let mut beside = String::from_str(alloc, path)?;
    beside.push_str(".partial")?;
    let written = fs::write(rt, beside.as_str(), bytes);
    match written.and_then(|()| fs::rename(rt, beside.as_str(), path)) {
        Ok(()) => Ok(()),
        Err(e) => {
            let _ = fs::remove_file(rt, beside.as_str());
            Err(fault_of(e))
        }
    }
}

/// Whether a path names a plain file, or a link to one.
fn is_file<R: rt::Files>(rt: &R, path: std::path::Path<'_>) -> io::Result<bool> {
    match fs::metadata(rt, path) {
        Ok(found) => Ok(found.is_file()),
        Err(e) if e.kind() == ErrorKind::NotFound => Ok(false),
        Err(e) => Err(e),
    }
}

/// The names in a directory that are text, in order.
fn strings_of<R: rt::Files>(rt: &R, alloc: Global, dir: &str) -> io::Result<Vec<String>> {
    let mut names = Vec::new(alloc);
    for entry in fs::read_dir(&(rt, alloc), dir)? {
        match entry {
            Ok(entry) => {
                if is_file(rt, entry.path())? {
                    names.push(String::from_str(alloc, entry.file_name())?)?;
                }
            }
            Err(e) if e.kind() == ErrorKind::InvalidFilename => {}
            Err(e) => return Err(e),
        }
    }
    names.sort()?;
    Ok(names)
}

fn texts_of(alloc: Global, strings: &[String]) -> Result<Vec<Text>, NoMemory>
    ensures { IfOk result (λ names. All IsUtf8 names.items) }
{
    let mut names = Vec::new(alloc);
    for string in strings {
        names.push(Text::of(alloc, string.as_bytes())?)?;
    }
    Ok(names)
}

fn names_of<R: rt::Files>(rt: &R, alloc: Global, dir: &str) -> Result<Vec<Text>, FilesFault>
    ensures { IfOk result (λ names. All IsUtf8 names.items) }
{
    let strings = strings_of(rt, alloc, dir).map_err(fault_of)?;
    Ok(texts_of(alloc, &strings)?)
}
