//! The form of a `go.mod`.
ghost use Rattle.std.specs.Prelude.{◌≡◌, ◌<◌, IfSome, MatchOption, length, map, position};
ghost use Rattle.std.specs.Option.{option_copied};
ghost use Rattle.std.specs.List.{list_all, slice_split};
ghost use Rattle.std.specs.Str.{is_utf8 as is_text};
ghost use Rattle.go_load.specs.GoMod as spec;
ghost use Rattle.go_load.specs.GoMod.{path_in};
ghost use Rattle.go_load.specs.GoModLines.{IsBad, IsNext};
ghost use Rattle.go_load.specs.ModuleFaults.{TellsPath};

use go_ast::Text;
use std::alloc::{AllocError, Global};
use std::str::from_utf8;

/// Why a text gives no module path.
#[derive(Clone, Copy, Debug, PartialEq, Eq)]
pub enum ModuleFault {
    /// It isn't of the form of a `go.mod`.
    BadModule,
    /// Memory ran out.
    NoMemory,
}

impl From<AllocError> for ModuleFault {
    ghost use Rattle.go_load.specs.declared.go_mod.ModuleFault.TheVariants as faults;

    ghost from_gives = { λ _ e. e ≡ faults.NoMemory };

    fn from(_e: AllocError) -> ModuleFault {
        ModuleFault::NoMemory
    }
}

fn is_gap(c: u8) -> bool
    ensures { result ≡ spec.is_gap c }
{
    c == b' ' || c == b'\t'
}

fn is_blank(c: u8) -> bool
    ensures { result ≡ spec.is_blank c }
{
    is_gap(c) || c == b'\r'
}

fn is_quote(c: u8) -> bool
    ensures { result ≡ spec.is_quote c }
{
    c == b'"' || c == b'\'' || c == b'`'
}

/// The line without `//` and what follows it.
fn before_comment(line: &[u8]) -> &[u8]
    ensures { result.now ≡ spec.before_comment line.now }
{
    for i in 0..line.len() {
        if line[i..].starts_with(b"//") {
            return &line[..i];
        }
    }
    line
}

fn first_solid(bytes: &[u8]) -> Option<usize>
    ensures place { result ≡ position spec.is_solid bytes.now }
    ensures within { IfSome result (λ i. i < length bytes.now) }
{
    bytes.iter().position(|c| !is_blank(*c))
}

fn trim_start(bytes: &[u8]) -> &[u8]
    ensures { result.now ≡ spec.trimmed_start bytes.now }
{
    match first_solid(bytes) {
        Some(i) => &bytes[i..],
        None => &bytes[bytes.len()..],
    }
}

fn trim_end(bytes: &[u8]) -> &[u8]
    ensures { result.now ≡ spec.trimmed_end bytes.now }
{
    let mut end = bytes.len();
    while end > 0 && is_blank(bytes[end - 1]) {
        end -= 1;
    }
    &bytes[..end]
}

/// What a line says.
fn content(line: &[u8]) -> &[u8]
    ensures { result.now ≡ spec.content line.now }
{
    trim_end(trim_start(before_comment(line)))
}

fn are_plain(bytes: &[u8]) -> bool
    ensures { result ≡ list_all spec.is_plain bytes.now }
{
    bytes.iter().all(|c| !(is_gap(*c) || is_quote(*c)))
}

fn is_word(bytes: &[u8]) -> bool
    ensures { result ≡ spec.is_word bytes.now }
{
    !bytes.is_empty() && are_plain(bytes)
}

fn gap_end(bytes: &[u8]) -> Option<usize>
    ensures place { result ≡ position spec.is_no_gap bytes.now }
    ensures within { IfSome result (λ i. i < length bytes.now) }
{
    bytes.iter().position(|c| !is_gap(*c))
}

fn word_behind_gap(bytes: &[u8]) -> Option<&[u8]>
    ensures { option_copied result ≡ spec.word_behind_gap bytes.now }
{
    match gap_end(bytes) {
        None | Some(0) => None,
        Some(i) => {
            let word = &bytes[i..];
            if is_word(word) { Some(word) } else { None }
        }
    }
}

/// The word behind a keyword.
fn word_of<'a>(keyword: &[u8], line: &'a [u8]) -> Option<&'a [u8]>
    ensures { option_copied result ≡ spec.word_of keyword.now line.now }
{
    match line.strip_prefix(keyword) {
        None => None,
        Some(rest) => word_behind_gap(rest),
    }
}

/// What the lines so far gave: the module path, and whether one was of the language's version.
#[derive(Clone, Copy)]
struct Seen<'a> {
    path: Option<&'a [u8]>,
    version: bool,
}

/// What the lines gave with one more, or `None` where they can't stand in a `go.mod`.
fn with_line<'a>(seen: Seen<'a>, line: &'a [u8]) -> Option<Seen<'a>>
    ensures { MatchOption result (IsBad (option_copied seen.entry.path) seen.entry.version line.now) (λ next. IsNext (option_copied seen.entry.path) seen.entry.version line.now (option_copied next.path) next.version) }
{
    let path = word_of(b"module", line);
    let version = word_of(b"go", line).is_some();
    if path.is_none() && !version && !line.is_empty() {
        return None;
    }
    if path.is_some() && seen.path.is_some() || version && seen.version {
        return None;
    }
    Some(Seen {
        path: path.or(seen.path),
        version: version || seen.version,
    })
}

fn first_newline(bytes: &[u8]) -> Option<usize>
    ensures place { result ≡ position spec.is_newline bytes.now }
    ensures within { IfSome result (λ i. i < length bytes.now) }
{
    bytes.iter().position(|c| *c == b'\n')
}

/// The module path that the lines of a text give.
fn path_in_lines(text: &[u8]) -> Option<&[u8]>
    ensures { option_copied result ≡ spec.path_in_lines (map spec.content (slice_split spec.is_newline text.now)) }
{
    let mut seen = Seen {
        path: None,
        version: false,
    };
    let mut rest = text;
    while let Some(end) = first_newline(rest) {
        seen = with_line(seen, content(&rest[..end]))?;
        rest = &rest[end + 1..];
    }
    with_line(seen, content(rest))?.path
}

pub(crate) fn is_utf8(bytes: &[u8]) -> bool
    ensures { result ≡ is_text bytes.now }
{
    match from_utf8(bytes) {
        Ok(_) => true,
        Err(_) => false,
    }
}

fn path_of(text: &[u8]) -> Option<&[u8]>
    ensures { option_copied result ≡ path_in text.now }
{
    if is_utf8(text) {
        path_in_lines(text)
    } else {
        None
    }
}

/// The module path that a `go.mod` gives.
///
/// `BadModule` exactly where the text isn't UTF-8, or a line isn't empty, `module` or `go` and one word without spaces, tabs and
/// quotes, or there isn't one line of the module, or there is more than one of the version. What follows `//` doesn't count.
pub fn module_path(alloc: Global, text: &[u8]) -> Result<Text, ModuleFault>
    ensures { TellsPath result (path_in text.now) }
{
    match path_of(text) {
        Some(path) => Ok(Text::of(alloc, path)?),
        None => Err(ModuleFault::BadModule),
    }
}
