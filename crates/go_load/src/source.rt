//! Reading source files.
ghost use Rattle.std.specs.Prelude.{◌≡◌, ◌≤◌, All, IfOk, IfSome, length};
ghost use Rattle.std.specs.Str.{IsUtf8};
ghost use Rattle.go_load.specs.Packages as spec;
ghost use Rattle.go_load.specs.Packages.{EachOf, FromText, IsOf, SourceIn, text_at};
ghost use Rattle.go_load.specs.Refusals.{Answers, CountsRead, Is, IsNoRead};

use crate::contents::Source;
use crate::reader::{ReadFault, ReadsSource};
use crate::refusal::LoadRefusal;
use cov_outside::{Files, Sequence, Text as Path, Which, WholeFault, read_whole};
use go_ast::{NoMemory, Text, place_of};
use std::alloc::Global;

/// The most bytes of a source file or of `go.mod`.
const SOURCE_BYTES: u64 = 4_194_304;

/// The directory, a slash and the name.
pub fn path_in(alloc: Global, dir: &Path, name: &[u8]) -> Result<Path, NoMemory>
    ensures { IfOk result (λ path. path ≡ spec.path_in dir.now name.now) }
{
    let mut path = Vec::from_slice(alloc, dir.bytes())?;
    path.push(b'/')?;
    path.extend_from_slice(name)?;
    Ok(Path::from_vec(path))
}

/// The bytes of a source file or of `go.mod`.
pub fn read_text<F: Files>(
    alloc: Global,
    files: &mut F,
    path: &Path,
) -> Result<Vec<u8>, LoadRefusal>
    requires { IsUtf8 path.now }
    ensures told { IfSome (F.tree files.old) (λ t. Answers (λ text. text.items) result (Is (text_at t path.now))) }
    ensures short { IfOk result (λ text. length text.items ≤ 4194304) }
    ensures same { F.tree files.new ≡ F.tree files.old }
    ensures cause { CountsRead (F.read_faults files.old) (F.read_faults files.new) result }
    ensures puts { F.put_faults files.new ≡ F.put_faults files.old }
{
    match read_whole(alloc, files, path.as_str(), SOURCE_BYTES) {
        Ok(text) => Ok(text),
        Err(WholeFault::Missing) => Err(LoadRefusal::Missing {
            path: Text::of(alloc, path.bytes())?,
        }),
        Err(WholeFault::Limit) => Err(LoadRefusal::Limit(Which::SourceBytes)),
        Err(WholeFault::Read) => Err(LoadRefusal::Read),
        Err(WholeFault::NoMemory) => Err(LoadRefusal::NoMemory),
    }
}

/// A text as a source file, or its first fault.
fn source_of<S: ReadsSource>(
    alloc: Global,
    reader: &S,
    path: &Path,
    name: &Path,
    text: Vec<u8>,
) -> Result<Source, LoadRefusal>
    requires { length text.items ≤ 4194304 }
    ensures told { Answers (λ source. source) result (FromText (S.gives reader.now) path.now name.now text.items) }
    ensures read { IfOk result (IsOf (S.gives reader.now)) }
    ensures no_read { IsNoRead result }
{
    match reader.read(alloc, &text) {
        Ok(tree) => Ok(Source {
            name: Text::of(alloc, name.bytes())?,
            tree,
            text: Sequence::from_vec(text),
        }),
        Err(ReadFault::At { offset, kind }) => Err(LoadRefusal::Source {
            path: Text::of(alloc, path.bytes())?,
            place: place_of(&text, offset as usize),
            kind,
        }),
        Err(ReadFault::Limit(which)) => Err(LoadRefusal::Limit(which)),
        Err(ReadFault::NoMemory) => Err(LoadRefusal::NoMemory),
    }
}

/// Reads a source file of a directory.
fn read_source<F: Files, S: ReadsSource>(
    alloc: Global,
    files: &mut F,
    reader: &S,
    dir: &Path,
    name: &Path,
) -> Result<Source, LoadRefusal>
    requires dir { IsUtf8 dir.now }
    requires name { IsUtf8 name.now }
    ensures told { IfSome (F.tree files.old) (λ t. Answers (λ source. source) result (SourceIn (S.gives reader.now) t dir.now name.now)) }
    ensures read { IfOk result (IsOf (S.gives reader.now)) }
    ensures same { F.tree files.new ≡ F.tree files.old }
    ensures cause { CountsRead (F.read_faults files.old) (F.read_faults files.new) result }
    ensures puts { F.put_faults files.new ≡ F.put_faults files.old }
{
    let path = path_in(alloc, dir, name.bytes())?;
    let text = read_text(alloc, files, &path)?;
    source_of(alloc, reader, &path, name, text)
}

/// Reads source files of a directory, in order.
pub fn read_sources<F: Files, S: ReadsSource>(
    alloc: Global,
    files: &mut F,
    reader: &S,
    dir: &Path,
    names: &[Path],
) -> Result<Vec<Source>, LoadRefusal>
    requires dir { IsUtf8 dir.now }
    requires names { All IsUtf8 names.now }
    ensures told { IfSome (F.tree files.old) (λ t. Answers (λ sources. sources.items) result (EachOf (SourceIn (S.gives reader.now) t dir.now) names.now)) }
    ensures read { IfOk result (λ sources. All (IsOf (S.gives reader.now)) sources.items) }
    ensures same { F.tree files.new ≡ F.tree files.old }
    ensures cause { CountsRead (F.read_faults files.old) (F.read_faults files.new) result }
    ensures puts { F.put_faults files.new ≡ F.put_faults files.old }
{
    let mut sources = Vec::new(alloc);
    for name in names {
        sources.push(read_source(alloc, files, reader, dir, name)?)?;
    }
    Ok(sources)
}
