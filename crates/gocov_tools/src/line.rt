//! The line of an answer.
ghost use Rattle.std.specs.Prelude.{◌≡◌, OnOk, OnErr, decimal};
ghost use Rattle.std.specs.List.{flat_map};
ghost use Rattle.std.specs.Io.KnownBytes.{append_known};
ghost use Rattle.cov_outside.specs.Faults.{Counts, HasPrefix};
ghost use Rattle.cov_outside.specs.Mode.{mode_name};
ghost use Rattle.cov_outside.specs.Limits.{kind_name, limit_name, limit_number};
ghost use Rattle.gocov_tools.specs.SourceNames.{source_name};
ghost use Rattle.gocov_tools.specs.Line.{line_of, data_line, source_line, limit_line, usage_line, clash_line, Finishes, HasLine, HasPart};

use crate::source_name::name_of;
use crate::status::Status;
use cov_outside::{DataKind, FilesFault, Sink, Text, Which, write_whole};
use go_ast::{Place, SourceKind};
use itoa::Buffer;

/// Writes pieces one after the other. After an `Err` the sink has received a front of them.
fn write_pieces<E: Sink>(err: &mut E, pieces: &[&[u8]]) -> Result<(), FilesFault>
    ensures ok { OnOk result (E.contents err.new ≡ append_known (E.contents err.old) (flat_map (λ p. p.now) pieces.now)) }
    ensures err { OnErr result (HasPrefix (E.contents err.old) (E.contents err.new) (flat_map (λ p. p.now) pieces.now)) }
    ensures cause { Counts (E.faults err.old) (E.faults err.new) result }
{
    for piece in pieces {
        write_whole(err, piece)?;
    }
    Ok(())
}

fn write_data_line<'a, E: Sink>(
    err: &mut E,
    path: &'a [u8],
    offset: &'a [u8],
    kind: &'a [u8],
) -> Result<(), FilesFault>
    ensures ok { OnOk result (E.contents err.new ≡ append_known (E.contents err.old) (data_line path.now offset.now kind.now)) }
    ensures err { OnErr result (HasPrefix (E.contents err.old) (E.contents err.new) (data_line path.now offset.now kind.now)) }
    ensures cause { Counts (E.faults err.old) (E.faults err.new) result }
{
    write_pieces(
        err,
        &[b"gocov: ", path, b": byte ", offset, b": ", kind, b"\n"],
    )
}

/// Writes what is wrong with a data file.
fn write_data<E: Sink>(
    err: &mut E,
    path: &Text,
    offset: u64,
    kind: &DataKind,
) -> Result<(), FilesFault>
    ensures ok { OnOk result (E.contents err.new ≡ append_known (E.contents err.old) (data_line path.now (decimal offset) (kind_name kind.now))) }
    ensures err { OnErr result (HasPrefix (E.contents err.old) (E.contents err.new) (data_line path.now (decimal offset) (kind_name kind.now))) }
    ensures cause { Counts (E.faults err.old) (E.faults err.new) result }
{
    let mut digits = Buffer::new();
    let offset = digits.format(offset).as_bytes();
    write_data_line(err, path.bytes(), offset, kind.name())
}

fn write_source_line<'a, E: Sink>(
    err: &mut E,
    path: &'a [u8],
    line: &'a [u8],
    column: &'a [u8],
    kind: &'a [u8],
) -> Result<(), FilesFault>
    ensures ok { OnOk result (E.contents err.new ≡ append_known (E.contents err.old) (source_line path.now line.now column.now kind.now)) }
    ensures err { OnErr result (HasPrefix (E.contents err.old) (E.contents err.new) (source_line path.now line.now column.now kind.now)) }
    ensures cause { Counts (E.faults err.old) (E.faults err.new) result }
{
    write_pieces(
        err,
        &[
            b"gocov: ", path, b":", line, b":", column, b": ", kind, b"\n",
        ],
    )
}

/// Writes what is wrong with a source file.
fn write_source<E: Sink>(
    err: &mut E,
    path: &Text,
    place: Place,
    kind: SourceKind,
) -> Result<(), FilesFault>
    ensures ok { OnOk result (E.contents err.new ≡ append_known (E.contents err.old) (source_line path.now (decimal place.line) (decimal place.column) (source_name kind))) }
    ensures err { OnErr result (HasPrefix (E.contents err.old) (E.contents err.new) (source_line path.now (decimal place.line) (decimal place.column) (source_name kind))) }
    ensures cause { Counts (E.faults err.old) (E.faults err.new) result }
{
    let mut line = Buffer::new();
    let mut column = Buffer::new();
    let line = line.format(place.line).as_bytes();
    let column = column.format(place.column).as_bytes();
    write_source_line(err, path.bytes(), line, column, name_of(kind))
}

fn write_limit_line<'a, E: Sink>(
    err: &mut E,
    name: &'a [u8],
    number: &'a [u8],
) -> Result<(), FilesFault>
    ensures ok { OnOk result (E.contents err.new ≡ append_known (E.contents err.old) (limit_line name.now number.now)) }
    ensures err { OnErr result (HasPrefix (E.contents err.old) (E.contents err.new) (limit_line name.now number.now)) }
    ensures cause { Counts (E.faults err.old) (E.faults err.new) result }
{
    write_pieces(err, &[b"gocov: limit ", name, b" ", number, b"\n"])
}

/// Writes which limit was passed.
fn write_limit<E: Sink>(err: &mut E, which: Which) -> Result<(), FilesFault>
    ensures ok { OnOk result (E.contents err.new ≡ append_known (E.contents err.old) (limit_line (limit_name which) (decimal (limit_number which)))) }
    ensures err { OnErr result (HasPrefix (E.contents err.old) (E.contents err.new) (limit_line (limit_name which) (decimal (limit_number which)))) }
    ensures cause { Counts (E.faults err.old) (E.faults err.new) result }
{
    let mut digits = Buffer::new();
    let number = digits.format(which.number()).as_bytes();
    write_limit_line(err, which.name(), number)
}

fn write_usage_line<'a, E: Sink>(err: &mut E, index: &'a [u8]) -> Result<(), FilesFault>
    ensures ok { OnOk result (E.contents err.new ≡ append_known (E.contents err.old) (usage_line index.now)) }
    ensures err { OnErr result (HasPrefix (E.contents err.old) (E.contents err.new) (usage_line index.now)) }
    ensures cause { Counts (E.faults err.old) (E.faults err.new) result }
{
    write_pieces(err, &[b"gocov: usage: word ", index, b"\n"])
}

/// Writes which word is wrong.
fn write_usage<E: Sink>(err: &mut E, word: usize) -> Result<(), FilesFault>
    ensures ok { OnOk result (E.contents err.new ≡ append_known (E.contents err.old) (usage_line (decimal word))) }
    ensures err { OnErr result (HasPrefix (E.contents err.old) (E.contents err.new) (usage_line (decimal word))) }
    ensures cause { Counts (E.faults err.old) (E.faults err.new) result }
{
    let mut digits = Buffer::new();
    let index = digits.format(word).as_bytes();
    write_usage_line(err, index)
}

/// Writes which two meta files differ in their modes.
fn write_clash<'a, E: Sink>(
    err: &mut E,
    first: &'a [u8],
    first_mode: &'a [u8],
    second: &'a [u8],
    second_mode: &'a [u8],
) -> Result<(), FilesFault>
    ensures ok { OnOk result (E.contents err.new ≡ append_known (E.contents err.old) (clash_line first.now first_mode.now second.now second_mode.now)) }
    ensures err { OnErr result (HasPrefix (E.contents err.old) (E.contents err.new) (clash_line first.now first_mode.now second.now second_mode.now)) }
    ensures cause { Counts (E.faults err.old) (E.faults err.new) result }
{
    write_pieces(
        err,
        &[
            b"gocov: mode clash: ",
            first,
            b" ",
            first_mode,
            b", ",
            second,
            b" ",
            second_mode,
            b"\n",
        ],
    )
}

/// Writes the line of an answer; none for `Done`.
fn write_line<E: Sink>(err: &mut E, status: &Status) -> Result<(), FilesFault>
    ensures ok { OnOk result (E.contents err.new ≡ append_known (E.contents err.old) (line_of status.now)) }
    ensures err { OnErr result (HasPrefix (E.contents err.old) (E.contents err.new) (line_of status.now)) }
    ensures cause { Counts (E.faults err.old) (E.faults err.new) result }
{
    match status {
        Status::Done(_) => Ok(()),
        Status::NotBuilt => write_pieces(err, &[b"gocov: not built\n".as_slice()]),
        Status::Usage(word) => write_usage(err, *word),
        Status::Source { path, place, kind } => write_source(err, path, *place, *kind),
        Status::Missing { path } => write_pieces(
            err,
            &[
                b"gocov: ".as_slice(),
                path.bytes(),
                b": Missing\n".as_slice(),
            ],
        ),
        Status::Data { path, offset, kind } => write_data(err, path, *offset, kind),
        Status::ModeClash {
            first,
            first_mode,
            second,
            second_mode,
        } => write_clash(
            err,
            first.bytes(),
            first_mode.name(),
            second.bytes(),
            second_mode.name(),
        ),
        Status::InputLimit(which) => write_limit(err, *which),
        Status::ReadFault => write_pieces(err, &[b"gocov: read fault\n".as_slice()]),
        Status::WriteFault => write_pieces(err, &[b"gocov: write fault\n".as_slice()]),
        Status::NoMemory => write_pieces(err, &[b"gocov: out of memory\n".as_slice()]),
    }
}

/// Writes the line of an answer, and says what the answer is then.
pub fn finish<E: Sink>(err: &mut E, status: Status) -> Status
    ensures answer { Finishes status result (E.faults err.old) (E.faults err.new) }
    ensures line { HasLine result (E.faults err.old) (E.faults err.new) (E.contents err.old) (E.contents err.new) }
    ensures part { HasPart (line_of status) (E.contents err.old) (E.contents err.new) }
{
    if let Status::Done(_) = status {
        return status;
    }
    match write_line(err, &status) {
        Ok(()) => status,
        Err(FilesFault::NoMemory) => Status::NoMemory,
        Err(FilesFault::Failed) => match status {
            Status::NoMemory => Status::NoMemory,
            _ => Status::WriteFault,
        },
    }
}
