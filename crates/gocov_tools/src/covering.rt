//! `cover`.
ghost use Rattle.std.specs.Prelude.{◌≡◌, ◌≤◌, ◌^◌, IfErr, IfOk, IfSome, length};
ghost use Rattle.std.specs.Str.{IsUtf8};
ghost use Rattle.go_parse.specs.Answers.{IsWithin};
ghost use Rattle.gocov_tools.specs.Covering as spec;
ghost use Rattle.gocov_tools.specs.Covering.{Covered, FromText, Tells, of_rewritten, source_at};
ghost use Rattle.gocov_tools.specs.Outcome.{Is, LeavesFiles};
ghost use Rattle.gocov_tools.specs.Outside.{Causes, CountsRead, IsOfCover, Keeps};
ghost use Rattle.gocov_tools.specs.Refusals.{Gives, answer_of};
ghost use Rattle.cov_outside.specs.Faults.{never};

use crate::perform::put_work;
use crate::refusal::{Refusal, status_of};
use crate::status::Status;
use crate::work::{PutFile, Work};
use cov_outside::{Files, NoMemory, Sequence, Text, Which, WholeFault, read_whole};
use cov_rewrite::{Rewritten, rewrite_counted};
use go_ast::place_of;
use go_parse::{SourceFault, WhichSource};
use gocov_words::CoverArgs;
use std::alloc::Global;

/// The most bytes of a source file.
const SOURCE_BYTES: u64 = 4_194_304;

/// The most units of a source file.
const MOST_UNITS: usize = 1_048_576;

/// The text of a source file.
fn read_source<F: Files>(alloc: Global, files: &mut F, path: &Text) -> Result<Vec<u8>, Refusal>
    requires { IsUtf8 path.now }
    ensures told { IfSome (F.tree files.old) (λ t. Gives (λ text. text.items) result (source_at t path.now)) }
    ensures short { IfOk result (λ text. length text.items ≤ 4194304) }
    ensures of_cover { IfErr result (λ refusal. IsOfCover (answer_of refusal)) }
    ensures same { F.tree files.new ≡ F.tree files.old }
    ensures cause { CountsRead (F.read_faults files.old) (F.read_faults files.new) result }
    ensures puts { F.put_faults files.new ≡ F.put_faults files.old }
{
    match read_whole(alloc, files, path.as_str(), SOURCE_BYTES) {
        Ok(text) => Ok(text),
        Err(WholeFault::Missing) => Err(Refusal::Missing {
            path: path.clone()?,
        }),
        Err(WholeFault::Limit) => Err(Refusal::Limit(Which::SourceBytes)),
        Err(WholeFault::Read) => Err(Refusal::Read),
        Err(WholeFault::NoMemory) => Err(Refusal::NoMemory),
    }
}

fn limit_of(which: WhichSource) -> Which
    ensures { result ≡ spec.limit_of which }
{
    match which {
        WhichSource::SelectClauses => Which::SelectClauses,
        WhichSource::Depth => Which::Depth,
    }
}

/// What is put for a covered text, which may not have too many units.
fn put_of(alloc: Global, args: &CoverArgs, rewritten: Rewritten) -> Result<Work, Refusal>
    ensures { Tells result (Is (of_rewritten args.now rewritten)) }
{
    if rewritten.units > MOST_UNITS {
        return Err(Refusal::Limit(Which::Units));
    }
    let path = String::from_str(alloc, args.out.as_str())?;
    let mut puts = Sequence::new(alloc);
    puts.push(PutFile {
        path,
        bytes: rewritten.text,
    })?;
    Ok(Work {
        text: Sequence::new(alloc),
        puts,
    })
}

/// The refusal for a fault of a source.
fn refusal_of(
    alloc: Global,
    args: &CoverArgs,
    text: &[u8],
    fault: SourceFault,
) -> Result<Refusal, NoMemory>
    requires short { length text.now ≤ 2 ^ 31 }
    requires within { IsWithin (length text.now) fault }
    ensures { IfOk result (λ refusal. refusal ≡ spec.refusal_of args.now text.now fault) }
{
    match fault {
        SourceFault::At { offset, kind } => Ok(Refusal::Source {
            path: args.file.clone()?,
            place: place_of(text, offset as usize),
            kind,
        }),
        SourceFault::Limit(which) => Ok(Refusal::Limit(limit_of(which))),
        SourceFault::NoMemory => Ok(Refusal::NoMemory),
    }
}

/// What is put for a source, or its first refusal.
fn work_of(alloc: Global, args: &CoverArgs, text: &[u8]) -> Result<Work, Refusal>
    requires { length text.now ≤ 2 ^ 31 }
    ensures { Tells result (FromText args.now text.now) }
{
    match rewrite_counted(alloc, text, args.file.bytes(), args.var.bytes(), args.mode) {
        Ok(rewritten) => put_of(alloc, args, rewritten),
        Err(fault) => Err(refusal_of(alloc, args, text, fault)?),
    }
}

/// The same as `cover`, once the source was read.
fn cover_text<F: Files>(alloc: Global, args: &CoverArgs, text: &[u8], files: &mut F) -> Status
    requires { length text.now ≤ 2 ^ 31 }
    ensures told { IfSome (F.tree files.old) (λ t. LeavesFiles result (FromText args.now text.now) t (F.tree files.new) (F.put_faults files.old) (F.put_faults files.new)) }
    ensures causes { Causes result (F.read_faults files.old) (F.read_faults files.new) (F.put_faults files.old) (F.put_faults files.new) never never }
    ensures of_cover { IsOfCover result }
    ensures kept { Keeps result (F.tree files.old) (F.tree files.new) }
{
    match work_of(alloc, args, text) {
        Ok(work) => put_work(files, &work),
        Err(refusal) => status_of(refusal),
    }
}

/// Puts the covered text of a source file, or answers its first refusal: reading, lexing, `CoverName`, grammar, `Units`.
///
/// Nothing is put before the whole text is there.
pub fn cover<F: Files>(alloc: Global, args: &CoverArgs, files: &mut F) -> Status
    ensures told { IfSome (F.tree files.old) (λ t. LeavesFiles result (Covered args.now t) t (F.tree files.new) (F.put_faults files.old) (F.put_faults files.new)) }
    ensures causes { Causes result (F.read_faults files.old) (F.read_faults files.new) (F.put_faults files.old) (F.put_faults files.new) never never }
    ensures of_cover { IsOfCover result }
    ensures kept { Keeps result (F.tree files.old) (F.tree files.new) }
{
    match read_source(alloc, files, &args.file) {
        Ok(text) => cover_text(alloc, args, &text, files),
        Err(refusal) => status_of(refusal),
    }
}
