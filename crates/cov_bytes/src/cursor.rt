//! Bytes that are read field by field.
ghost use Rattle.std.specs.Prelude.{◌≡◌, ◌≤◌, ◌<◌, length, take, position, nat_lt, IfOk, OnOk, OnErr, IsErrOf, IsOk, ◌↔◌, Err, MatchResult};
ghost use Rattle.cov_bytes.specs.Reading.{Place, Moves, take_at, byte_at, little_at, big_at, uleb_at, groups_value, IsNumberAt};

use byteorder::{BigEndian, ByteOrder, LittleEndian};
use std::marker::Model;

/// Why a field can't be read, with the offset from 0 at which the read began; for a seek it is where that went.
#[derive(Clone, Copy, Debug, PartialEq, Eq)]
pub enum CutFault {
    /// Fewer bytes are left.
    Short(usize),
    /// The first ten bytes of a ULEB128 number all have the high bit.
    NumberTooLong(usize),
    /// A ULEB128 number isn't below 2^32.
    NumberTooLarge(usize),
}

/// A place in bytes. What is read begins there, and the place moves behind it; after a fault it is as before.
#[derive(Drop)]
pub struct Cursor<'a> {
    bytes: &'a [u8],
    at: usize,
}

impl<'a> Model for Cursor<'a> {
    ghost use Rattle.std.specs.Prelude.{◌≤◌, length};
    ghost use Rattle.cov_bytes.specs.Reading.{Place};

    ghost Value = { Place };

    ghost view = { λ c. record { bytes = c.bytes.now; at = c.at } };

    ghost invariant = { λ c. c.at ≤ length c.bytes.now };
}

impl<'a> Cursor<'a> {
    /// The start of some bytes.
    pub fn new(bytes: &'a [u8]) -> Cursor<'a>
        ensures { result ≡ record { bytes = bytes.now; at = 0 } }
    {
        Cursor { bytes, at: 0 }
    }

    /// The next `n` bytes.
    pub fn take(&mut self, n: usize) -> Result<&'a [u8], CutFault>
        ensures { Moves (λ x. x.now) self.old self.new result (take_at n self.old.bytes self.old.at) }
    {
        let at = self.at;
        if self.bytes.len() - at < n {
            return Err(CutFault::Short(at));
        }
        self.at = at + n;
        Ok(&self.bytes[at..at + n])
    }

    /// The offset of the next byte.
    pub fn at(&self) -> usize
        ensures { result ≡ self.now.at }
    {
        self.at
    }

    /// The next 16 bytes.
    pub fn take16(&mut self) -> Result<[u8; 16], CutFault>
        ensures { Moves (λ x. x) self.old self.new result (take_at 16 self.old.bytes self.old.at) }
    {
        let at = self.at;
        if self.bytes.len() - at < 16 {
            return Err(CutFault::Short(at));
        }
        let mut found = [0u8; 16];
        found.copy_from_slice(&self.bytes[at..at + 16]);
        self.at = at + 16;
        Ok(found)
    }

    /// The next byte.
    pub fn u8(&mut self) -> Result<u8, CutFault>
        ensures { Moves (λ x. x) self.old self.new result (byte_at self.old.bytes self.old.at) }
    {
        let at = self.at;
        if self.bytes.len() - at < 1 {
            return Err(CutFault::Short(at));
        }
        self.at = at + 1;
        Ok(self.bytes[at])
    }

    /// A number of 4 bytes, the lowest first.
    pub fn u32_le(&mut self) -> Result<u32, CutFault>
        ensures { Moves (λ x. x) self.old self.new result (little_at 4 self.old.bytes self.old.at) }
    {
        let at = self.at;
        if self.bytes.len() - at < 4 {
            return Err(CutFault::Short(at));
        }
        self.at = at + 4;
        Ok(LittleEndian::read_u32(&self.bytes[at..]))
    }

    /// A number of 4 bytes, the highest first.
    pub fn u32_be(&mut self) -> Result<u32, CutFault>
        ensures { Moves (λ x. x) self.old self.new result (big_at 4 self.old.bytes self.old.at) }
    {
        let at = self.at;
        if self.bytes.len() - at < 4 {
            return Err(CutFault::Short(at));
        }
        self.at = at + 4;
        Ok(BigEndian::read_u32(&self.bytes[at..]))
    }

    /// A number of 8 bytes, the lowest first.
    pub fn u64_le(&mut self) -> Result<u64, CutFault>
        ensures { Moves (λ x. x) self.old self.new result (little_at 8 self.old.bytes self.old.at) }
    {
        let at = self.at;
        if self.bytes.len() - at < 8 {
            return Err(CutFault::Short(at));
        }
        self.at = at + 8;
        Ok(LittleEndian::read_u64(&self.bytes[at..]))
    }

    /// Moves to an offset from 0, at most to the end.
    pub fn seek(&mut self, at: usize) -> Result<(), CutFault>
        ensures ok { OnOk result (self.new ≡ record self.old { at = at }) }
        ensures short { (result ≡ Err (CutFault.Short at)) ↔ (length self.old.bytes < at) }
        ensures only_short { at ≤ length self.old.bytes → IsOk result }
        ensures err { OnErr result (self.new ≡ self.old) }
    {
        if self.bytes.len() < at {
            return Err(CutFault::Short(at));
        }
        self.at = at;
        Ok(())
    }

    /// A ULEB128 number below 2^32, in any spelling of at most ten bytes.
    pub fn uleb(&mut self) -> Result<u32, CutFault>
        ensures { Moves (λ x. x) self.old self.new result (uleb_at self.old.bytes self.old.at) }
    {
        let at = self.at;
        let (n, len) = uleb_of(at, &self.bytes[at..])?;
        self.at = at + len;
        Ok(n)
    }
}

/// What the groups of seven bits stand for.
fn value_of(groups: &[u8]) -> u128
    requires { length groups.now ≤ 10 }
    ensures { result ≡ groups_value groups.now }
{
    let mut value = 0u128;
    let mut i = groups.len();
    while i > 0 {
        i -= 1;
        let group = u128::from(groups[i] % 128);
        value = group + 128 * value;
    }
    value
}

/// At most ten bytes.
fn front_of(rest: &[u8]) -> &[u8]
    ensures { result.now ≡ take 10 rest.now }
{
    &rest[..rest.len().min(10)]
}

fn last_of(front: &[u8]) -> Option<usize>
    ensures { result ≡ position (λ b. nat_lt b 128) front.now }
{
    front.iter().position(|b| *b < 128)
}

/// The number at the front, and how many bytes it takes.
fn uleb_of(at: usize, rest: &[u8]) -> Result<(u32, usize), CutFault>
    ensures { IsNumberAt at rest.now result }
{
    let front = front_of(rest);
    match last_of(front) {
        None => {
            if front.len() == 10 {
                Err(CutFault::NumberTooLong(at))
            } else {
                Err(CutFault::Short(at))
            }
        }
        Some(last) => match u32::try_from(value_of(&front[..last + 1])) {
            Ok(n) => Ok((n, last + 1)),
            Err(_) => Err(CutFault::NumberTooLarge(at)),
        },
    }
}
