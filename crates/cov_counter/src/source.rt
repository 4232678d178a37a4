//! The bytes of a data file that may be read, field by field.
ghost use Rattle.std.specs.Prelude.{◌≡◌, ◌-◌, length, take};
ghost use Rattle.cov_bytes.specs.Reading.{take_at, byte_at, little_at, big_at, uleb_at};
ghost use Rattle.cov_counter.specs.Fault.{fault_of};
ghost use Rattle.cov_counter.specs.File.{Reads, field, up_to, Cuts, Seeks};

use crate::fault::CounterFault;
use cov_bytes::{Cursor, CutFault};
use cov_outside::{DataKind, Which};
use std::marker::Model;

/// A place in the bytes of a file up to the limit on data files, and whether the file has more bytes than that.
#[derive(Drop)]
pub struct Source<'a> {
    bytes: &'a [u8],
    cursor: Cursor<'a>,
    more: bool,
}

impl<'a> Model for Source<'a> {
    ghost use Rattle.std.specs.Prelude.{◌≡◌};
    ghost use Rattle.cov_counter.specs.File.{Spot};

    ghost Value = { Spot };

    ghost view = { λ s. record { file = record { bytes = s.bytes.now; more = s.more }; at = s.cursor.at } };

    ghost invariant = { λ s. s.cursor.bytes ≡ s.bytes.now };
}

/// A read past the last byte is one past the limit where the file has more bytes.
fn beyond(more: bool, fault: CutFault) -> CounterFault
    ensures { result ≡ fault_of more fault }
{
    let (offset, kind) = match fault {
        CutFault::Short(_) if more => return CounterFault::Limit(Which::DataBytes),
        CutFault::Short(at) => (at, DataKind::Short),
        CutFault::NumberTooLong(at) => (at, DataKind::NumberTooLong),
        CutFault::NumberTooLarge(at) => (at, DataKind::NumberTooLarge),
    };
    CounterFault::At {
        offset: offset as u64,
        kind,
    }
}

impl<'a> Source<'a> {
    pub fn new(bytes: &'a [u8], more: bool) -> Source<'a>
        ensures { result ≡ record { file = record { bytes = bytes.now; more = more }; at = 0 } }
    {
        Source {
            bytes,
            cursor: Cursor::new(bytes),
            more,
        }
    }

    /// Goes to an offset, which is the end or before it.
    pub fn seek(&mut self, at: usize) -> Result<(), CounterFault>
        ensures { Seeks at self.old self.new result }
    {
        match self.cursor.seek(at) {
            Ok(()) => Ok(()),
            Err(f) => Err(beyond(self.more, f)),
        }
    }

    /// The offset of the next byte.
    pub fn at(&self) -> usize
        ensures { result ≡ self.now.at }
    {
        self.cursor.at()
    }

    /// How many bytes are left before the end or the limit.
    pub fn left(&self) -> usize
        ensures { result ≡ length self.now.file.bytes - self.now.at }
    {
        self.bytes.len().saturating_sub(self.cursor.at())
    }

    /// Whether the file goes on behind the limit.
    pub fn more(&self) -> bool
        ensures { result ≡ self.now.file.more }
    {
        self.more
    }

    pub fn take(&mut self, n: usize) -> Result<&'a [u8], CounterFault>
        ensures { Reads (λ x. x.now) self.old self.new result (field self.old.file (take_at n self.old.file.bytes self.old.at)) }
    {
        match self.cursor.take(n) {
            Ok(found) => Ok(found),
            Err(f) => Err(beyond(self.more, f)),
        }
    }

    pub fn take16(&mut self) -> Result<[u8; 16], CounterFault>
        ensures { Reads (λ x. x) self.old self.new result (field self.old.file (take_at 16 self.old.file.bytes self.old.at)) }
    {
        match self.cursor.take16() {
            Ok(found) => Ok(found),
            Err(f) => Err(beyond(self.more, f)),
        }
    }

    pub fn u8(&mut self) -> Result<u8, CounterFault>
        ensures { Reads (λ x. x) self.old self.new result (field self.old.file (byte_at self.old.file.bytes self.old.at)) }
    {
        match self.cursor.u8() {
            Ok(found) => Ok(found),
            Err(f) => Err(beyond(self.more, f)),
        }
    }

    pub fn u32_le(&mut self) -> Result<u32, CounterFault>
        ensures { Reads (λ x. x) self.old self.new result (field self.old.file (little_at 4 self.old.file.bytes self.old.at)) }
    {
        match self.cursor.u32_le() {
            Ok(found) => Ok(found),
            Err(f) => Err(beyond(self.more, f)),
        }
    }

    pub fn u32_be(&mut self) -> Result<u32, CounterFault>
        ensures { Reads (λ x. x) self.old self.new result (field self.old.file (big_at 4 self.old.file.bytes self.old.at)) }
    {
        match self.cursor.u32_be() {
            Ok(found) => Ok(found),
            Err(f) => Err(beyond(self.more, f)),
        }
    }

    pub fn u64_le(&mut self) -> Result<u64, CounterFault>
        ensures { Reads (λ x. x) self.old self.new result (field self.old.file (little_at 8 self.old.file.bytes self.old.at)) }
    {
        match self.cursor.u64_le() {
            Ok(found) => Ok(found),
            Err(f) => Err(beyond(self.more, f)),
        }
    }

    pub fn uleb(&mut self) -> Result<u32, CounterFault>
        ensures { Reads (λ x. x) self.old self.new result (field self.old.file (uleb_at self.old.file.bytes self.old.at)) }
    {
        match self.cursor.uleb() {
            Ok(found) => Ok(found),
            Err(f) => Err(beyond(self.more, f)),
        }
    }

    /// A part of a stated length, of which every byte is there. Nothing behind its end can be read from it.
    pub fn part(&mut self, length: u32) -> Result<Source<'a>, CounterFault>
        ensures { Cuts self.old self.new result (field self.old.file (take_at length self.old.file.bytes self.old.at)) }
    {
        let start = self.at();
        self.take(length as usize)?;
        let mut part = Source::new(&self.bytes[..self.cursor.at()], false);
        part.seek(start)?;
        Ok(part)
    }
}
