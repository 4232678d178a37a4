//! Writing what a command writes.
ghost use Rattle.std.specs.Prelude.{◌≡◌, ◌<◌, length, IfSome, IsErrOf, OnOk, OnErr};
ghost use Rattle.std.specs.Str.{IsUtf8};
ghost use Rattle.std.specs.Option.{option_map};
ghost use Rattle.std.specs.FinMap as map;
ghost use Rattle.cov_outside.specs.Faults.{Counts, never};
ghost use Rattle.cov_outside.specs.Tree.{SameElsewhere};
ghost use Rattle.gocov_tools.specs.Outcome.{with_puts, PutsUpTo, PutFails, Performs, Writes};
ghost use Rattle.gocov_tools.specs.Outside.{Causes, IsOfCover, IsOfData, Keeps};

use crate::status::Status;
use crate::work::{PutFile, Work};
use cov_outside::{Files, FilesFault, Sink, Text, write_whole};

fn put_file<F: Files>(files: &mut F, put: &PutFile) -> Result<(), FilesFault>
    ensures ok { OnOk result (F.tree files.new ≡ option_map (λ t. map.insert t put.now.0 put.now.1) (F.tree files.old)) }
    ensures failed { IsErrOf result FilesFault.Failed → SameElsewhere put.now.0 (F.tree files.old) (F.tree files.new) }
    ensures no_memory { IsErrOf result FilesFault.NoMemory → F.tree files.new ≡ F.tree files.old }
    ensures cause { Counts (F.put_faults files.old) (F.put_faults files.new) result }
    ensures reads { F.read_faults files.new ≡ F.read_faults files.old }
{
    files.put(put.path.as_str(), put.bytes.as_slice())
}

/// Puts files in order, up to the first that can't be put.
fn put_all<F: Files>(files: &mut F, puts: &[PutFile]) -> Result<(), FilesFault>
    ensures ok { OnOk result (F.tree files.new ≡ option_map (λ t. with_puts t puts.now) (F.tree files.old)) }
    ensures failed { IsErrOf result FilesFault.Failed → IfSome (F.tree files.old) (λ t. PutFails puts.now t (F.tree files.new)) }
    ensures no_memory { IsErrOf result FilesFault.NoMemory → IfSome (F.tree files.old) (λ t. PutsUpTo puts.now t (F.tree files.new)) }
    ensures cause { Counts (F.put_faults files.old) (F.put_faults files.new) result }
    ensures reads { F.read_faults files.new ≡ F.read_faults files.old }
{
    for put in puts {
        put_file(files, put)?;
    }
    Ok(())
}

/// Makes the directory of the files, where there are some.
fn make_dir_of<F: Files>(
    files: &mut F,
    dir: Option<&Text>,
    puts: &[PutFile],
) -> Result<(), FilesFault>
    requires { IfSome dir (λ d. IsUtf8 d.now) }
    ensures same { F.tree files.new ≡ F.tree files.old }
    ensures some { OnErr result (0 < length puts.now) }
    ensures cause { Counts (F.put_faults files.old) (F.put_faults files.new) result }
    ensures reads { F.read_faults files.new ≡ F.read_faults files.old }
{
    match dir {
        Some(dir) if !puts.is_empty() => files.make_dir(dir.as_str()),
        _ => Ok(()),
    }
}

/// Puts files in order, up to the first that can't be put. Their directory, where one is given, is made first.
fn put_in<F: Files>(files: &mut F, dir: Option<&Text>, puts: &[PutFile]) -> Result<(), FilesFault>
    requires { IfSome dir (λ d. IsUtf8 d.now) }
    ensures ok { OnOk result (F.tree files.new ≡ option_map (λ t. with_puts t puts.now) (F.tree files.old)) }
    ensures failed { IsErrOf result FilesFault.Failed → IfSome (F.tree files.old) (λ t. PutFails puts.now t (F.tree files.new)) }
    ensures no_memory { IsErrOf result FilesFault.NoMemory → IfSome (F.tree files.old) (λ t. PutsUpTo puts.now t (F.tree files.new)) }
    ensures cause { Counts (F.put_faults files.old) (F.put_faults files.new) result }
    ensures reads { F.read_faults files.new ≡ F.read_faults files.old }
{
    make_dir_of(files, dir, puts)?;
    put_all(files, puts)
}

/// Writes the text of the work, and then puts its files, in a directory that is made where it is missing.
pub fn perform<F: Files, O: Sink>(
    files: &mut F,
    out: &mut O,
    dir: Option<&Text>,
    work: &Work,
) -> Status
    requires { IfSome dir (λ d. IsUtf8 d.now) }
    ensures told { IfSome (F.tree files.old) (λ t. Performs result work.now t (F.tree files.new) (F.put_faults files.old) (F.put_faults files.new) (O.faults out.old) (O.faults out.new)) }
    ensures received { Writes result work.now (O.contents out.old) (O.contents out.new) }
    ensures causes { Causes result (F.read_faults files.old) (F.read_faults files.new) (F.put_faults files.old) (F.put_faults files.new) (O.faults out.old) (O.faults out.new) }
    ensures of_data { IsOfData result }
    ensures kept { Keeps result (F.tree files.old) (F.tree files.new) }
    ensures kept_out { Keeps result (O.contents out.old) (O.contents out.new) }
{
    match write_whole(out, work.text.as_slice()) {
        Ok(()) => (),
        Err(FilesFault::Failed) => return Status::WriteFault,
        Err(FilesFault::NoMemory) => return Status::NoMemory,
    }
    match put_in(files, dir, work.puts.as_slice()) {
        Ok(()) => Status::Done(0),
        Err(FilesFault::Failed) => Status::WriteFault,
        Err(FilesFault::NoMemory) => Status::NoMemory,
    }
}

/// Puts the files of a work in order. It has no text, and no directory is made.
pub fn put_work<F: Files>(files: &mut F, work: &Work) -> Status
    ensures told { IfSome (F.tree files.old) (λ t. Performs result work.now t (F.tree files.new) (F.put_faults files.old) (F.put_faults files.new) never never) }
    ensures causes { Causes result (F.read_faults files.old) (F.read_faults files.new) (F.put_faults files.old) (F.put_faults files.new) never never }
    ensures of_cover { IsOfCover result }
    ensures kept { Keeps result (F.tree files.old) (F.tree files.new) }
{
    match put_all(files, work.puts.as_slice()) {
        Ok(()) => Status::Done(0),
        Err(FilesFault::Failed) => Status::WriteFault,
        Err(FilesFault::NoMemory) => Status::NoMemory,
    }
}
