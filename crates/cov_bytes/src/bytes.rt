//! Bytes that are built field by field.
ghost use Rattle.std.specs.Prelude.{◌≡◌, ◌≤◌, ◌++◌, [], length, take, replicate, OnOk, OnErr};
ghost use Rattle.byteorder.specs.Endian.{little_bytes};
ghost use Rattle.cov_bytes.specs.Writing.{uleb_of, padding};

use cov_outside::NoMemory;
use std::alloc::Global;
use std::marker::Model;

/// Bytes that grow at their end. After want of memory they are as before.
#[derive(Debug, Drop)]
pub struct Bytes {
    held: Vec<u8>,
}

impl Model for Bytes {
    ghost use Rattle.std.specs.Prelude.{List, ℕ};

    ghost Value = { List ℕ };

    ghost view = { λ b. b.held.items };
}

impl Bytes {
    /// No bytes.
    pub fn new(alloc: Global) -> Bytes
        ensures { result ≡ [] }
    {
        Bytes {
            held: Vec::new(alloc),
        }
    }

    /// How many bytes there are.
    pub fn len(&self) -> usize
        ensures { result ≡ length self.now }
    {
        self.held.len()
    }

    /// The bytes so far.
    pub fn as_slice(&self) -> &[u8]
        ensures { result.now ≡ self.now }
    {
        &self.held
    }

    /// The buffer.
    pub fn into_vec(self) -> Vec<u8>
        ensures { result.items ≡ self }
    {
        let Bytes { held } = self;
        held
    }

    /// Appends a piece.
    pub fn push(&mut self, piece: &[u8]) -> Result<(), NoMemory>
        ensures ok { OnOk result (self.new ≡ self.old ++ piece.now) }
        ensures err { OnErr result (self.new ≡ self.old) }
    {
        self.held.extend_from_slice(piece)?;
        Ok(())
    }

    /// Appends a number as 4 bytes, the lowest first.
    pub fn push_u32(&mut self, n: u32) -> Result<(), NoMemory>
        ensures ok { OnOk result (self.new ≡ self.old ++ little_bytes 4 n) }
        ensures err { OnErr result (self.new ≡ self.old) }
    {
        self.push(&n.to_le_bytes())
    }

    /// Appends a number as 8 bytes, the lowest first.
    pub fn push_u64(&mut self, n: u64) -> Result<(), NoMemory>
        ensures ok { OnOk result (self.new ≡ self.old ++ little_bytes 8 n) }
        ensures err { OnErr result (self.new ≡ self.old) }
    {
        self.push(&n.to_le_bytes())
    }

    /// Appends the shortest ULEB128 spelling of a number.
    pub fn push_uleb(&mut self, n: u32) -> Result<(), NoMemory>
        ensures ok { OnOk result (self.new ≡ self.old ++ uleb_of n) }
        ensures err { OnErr result (self.new ≡ self.old) }
    {
        let (groups, len) = groups_of(n);
        self.push(&groups[..len])
    }

    /// Appends bytes 0 up to a length that is a multiple of 4.
    pub fn pad4(&mut self) -> Result<(), NoMemory>
        ensures ok { OnOk result (self.new ≡ self.old ++ replicate (padding (length self.old)) 0) }
        ensures err { OnErr result (self.new ≡ self.old) }
    {
        let missing = (4 - self.held.len() % 4) % 4;
        self.push(&[0; 3][..missing])
    }
}

/// The shortest ULEB128 spelling of a number is the front of the array, of the length that is answered.
fn groups_of(n: u32) -> ([u8; 5], usize)
    ensures within { result.1 ≤ 5 }
    ensures spelling { take result.1 result.0 ≡ uleb_of n }
{
    let mut groups = [0u8; 5];
    let mut len = 0;
    let mut rest = n;
    while rest >= 128 {
        groups[len] = (128 + rest % 128) as u8;
        len += 1;
        rest /= 128;
    }
    groups[len] = rest as u8;
    (groups, len + 1)
}
