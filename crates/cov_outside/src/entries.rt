//! A map from paths to bytes, as entries in the order of their paths.
ghost use Rattle.std.specs.Prelude.{◌≡◌, ◌≤◌, List, ℕ, Option, Some, None, IfOk, IfNone, IsTrue, All, OnOk, OnErr, Contains, ◌↔◌, length, map, MatchOption, [], ◌++◌, IfSome};
ghost use Rattle.std.specs.List.{filter_map};
ghost use Rattle.std.specs.Option.{option_copied, option_to_list};
ghost use Rattle.std.specs.FinMap as finmap;
ghost use Rattle.std.specs.Ordering.{nat_cmp};
ghost use Rattle.std.specs.Cmp.Lexicographic.{slice_cmp};
ghost use Rattle.std.specs.Str.{IsUtf8};
ghost use Rattle.cov_outside.specs.Tree.{name_in, names_in, ReadsAt};
ghost use Rattle.cov_outside.specs.Tree as tree;
ghost use Rattle.cov_outside.specs.Memory.{next_call, pairs_of, IsPlace};

use crate::fault::NoMemory;
use crate::text::Text;
use std::alloc::Global;
use std::cmp::Ordering;
use std::marker::Model;

#[derive(Debug, Drop)]
pub struct Entry {
    pub path: String,
    pub bytes: Vec<u8>,
}

/// Contents by path.
#[derive(Debug, Drop)]
pub struct Contents {
    alloc: Global,
    entries: Vec<Entry>,
}

impl Model for Contents {
    ghost use Rattle.std.specs.Prelude.{IsTrue};
    ghost use Rattle.std.specs.FinMap as finmap;
    ghost use Rattle.cov_outside.specs.Tree.{Tree, tree_code};
    ghost use Rattle.cov_outside.specs.Memory.{pairs_of, is_in_order};

    ghost Value = { Tree };

    ghost coded = { tree_code };

    ghost view = { λ m. finmap.from_sorted (pairs_of m.entries.items) };

    ghost invariant = { λ m. IsTrue (is_in_order m.entries.items) };
}

impl Contents {
    pub fn new(alloc: Global) -> Contents
        ensures { result ≡ finmap.empty }
    {
        Contents {
            alloc,
            entries: Vec::new(alloc),
        }
    }

    pub fn insert(&mut self, path: &str, bytes: &[u8]) -> Result<(), NoMemory>
        ensures ok { OnOk result (self.new ≡ finmap.insert self.old path.now bytes.now) }
        ensures err { OnErr result (self.new ≡ self.old) }
    {
        store(self.alloc, &mut self.entries, path, bytes)
    }

    pub fn get(&self, path: &str) -> Option<&[u8]>
        ensures { option_copied result ≡ finmap.get self.now path.now }
    {
        find(&self.entries, path)
    }

    pub fn names(&self, alloc: Global, dir: &str) -> Result<Vec<Text>, NoMemory>
        ensures names { IfOk result (λ names. names.items ≡ names_in dir.now self.now) }
        ensures utf8 { IfOk result (λ names. All IsUtf8 names.items) }
    {
        names_of(alloc, &self.entries, dir)
    }
}

/// Whether the next call fails.
pub fn next(failing: &[u64], calls: &mut u64) -> bool
    ensures fails { IsTrue result ↔ Contains failing.now calls.old }
    ensures counts { calls.new ≡ next_call calls.old }
{
    let call = *calls;
    *calls = call.saturating_add(1);
    failing.contains(&call)
}

fn find<'a>(entries: &'a [Entry], path: &str) -> Option<&'a [u8]>
    ensures { option_copied result ≡ finmap.find (slice_cmp nat_cmp) path.now (pairs_of entries.now) }
{
    for entry in entries {
        match path.cmp(entry.path.as_str()) {
            Ordering::Equal => return Some(&entry.bytes),
            Ordering::Less => {}
            Ordering::Greater => {}
        }
    }
    None
}

/// Where a path stands, or where it would stand.
fn place(entries: &[Entry], path: &str) -> Result<usize, usize>
    ensures { IsPlace path.now entries.now result }
{
    for (i, entry) in entries.iter().enumerate() {
        match path.cmp(entry.path.as_str()) {
            Ordering::Greater => {}
            Ordering::Equal => return Ok(i),
            Ordering::Less => return Err(i),
        }
    }
    Err(entries.len())
}

fn store(alloc: Global, entries: &mut Vec<Entry>, path: &str, bytes: &[u8]) -> Result<(), NoMemory>
    ensures ok { OnOk result (pairs_of entries.new.items ≡ finmap.put (slice_cmp nat_cmp) path.now bytes.now (pairs_of entries.old.items)) }
    ensures err { OnErr result (entries.new.items ≡ entries.old.items) }
{
    let bytes = Vec::from_slice(alloc, bytes)?;
    match place(entries, path) {
        Ok(i) => entries[i].bytes = bytes,
        Err(i) => {
            let path = String::from_str(alloc, path)?;
            entries.insert(i, Entry { path, bytes })?;
        }
    }
    Ok(())
}

pub fn copy_at(bytes: &[u8], at: u64, buf: &mut [u8]) -> usize
    ensures bound { result ≤ length buf.new }
    ensures bytes { ReadsAt (Some bytes.now) at buf.new (Some result) }
{
    if at >= bytes.len() as u64 {
        return 0;
    }
    let rest = &bytes[at as usize..];
    let n = rest.len().min(buf.len());
    buf[..n].copy_from_slice(&rest[..n]);
    n
}

fn is_name(bytes: &[u8]) -> bool
    ensures { result ≡ tree.is_name bytes.now }
{
    !bytes.is_empty() && !bytes.contains(&b'/')
}

fn behind<'a>(dir: &[u8], path: &'a [u8]) -> Option<&'a [u8]>
    ensures { MatchOption result (name_in dir.now path.now ≡ None) (λ rest. name_in dir.now path.now ≡ name_in [] rest.now) }
{
    path.strip_prefix(dir)
}

fn name_behind<'a>(dir: &[u8], path: &'a [u8]) -> Option<&'a [u8]>
    ensures { option_copied result ≡ name_in dir.now path.now }
{
    match behind(dir, path)? {
        [] => None,
        [first, name @ ..] => {
            if *first == b'/' && is_name(name) {
                Some(name)
            } else {
                None
            }
        }
    }
}

/// The name of a path directly in a directory.
fn name_of<'a>(dir: &str, path: &'a str) -> Option<&'a [u8]>
    ensures name { option_copied result ≡ name_in dir.now path.now }
    ensures utf8 { IfSome result (λ name. IsUtf8 name.now) }
{
    name_behind(dir.as_bytes(), path.as_bytes())
}

fn push_name(alloc: Global, names: &mut Vec<Text>, dir: &str, path: &str) -> Result<(), NoMemory>
    ensures ok { OnOk result (names.new.items ≡ names.old.items ++ option_to_list (name_in dir.now path.now)) }
    ensures utf8 { OnOk result (All IsUtf8 names.old.items → All IsUtf8 names.new.items) }
{
    if let Some(name) = name_of(dir, path) {
        names.push(Text::of(alloc, name)?)?;
    }
    Ok(())
}

fn names_of(alloc: Global, entries: &[Entry], dir: &str) -> Result<Vec<Text>, NoMemory>
    ensures names { IfOk result (λ names. names.items ≡ filter_map (name_in dir.now) (map (λ e. e.0) (pairs_of entries.now))) }
    ensures utf8 { IfOk result (λ names. All IsUtf8 names.items) }
{
    let mut names = Vec::new(alloc);
    for entry in entries {
        push_name(alloc, &mut names, dir, entry.path.as_str())?;
    }
    Ok(names)
}
