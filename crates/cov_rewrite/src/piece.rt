//! What is put into a source, and where.
ghost use Rattle.std.specs.Prelude.{◌≡◌, ◌++◌, ◌≤◌, ◌<◌, ◌^◌, length, map, IfOk, OnOk};
ghost use Rattle.std.specs.List.{enumerate_from};
ghost use Rattle.cov_rewrite.specs.Additions as spec;
ghost use Rattle.cov_rewrite.specs.Additions.{name_end, left_braces, right_braces};

use cov_cut::Unit;
use cov_outside::{Mode, NoMemory};
use go_ast::{Name, Span};
use std::alloc::Global;

/// Something that is put into a source.
#[derive(Clone, Copy, Debug, PartialEq, Eq)]
pub enum Addition {
    /// The import of the package with the atomic operations.
    Import,
    /// The left brace of a block around the `if` behind an `else`.
    LeftBrace,
    /// The right brace of such a block.
    RightBrace,
    /// The counter of the unit with a number.
    Counter(usize),
}

/// Something that is put into a source before the byte at an offset.
#[derive(Clone, Copy, Debug, PartialEq, Eq)]
pub struct Piece {
    pub at: u32,
    pub addition: Addition,
}

/// All that is put into a source, by kinds.
pub fn pieces_of(
    alloc: Global,
    mode: Mode,
    name: &Name,
    else_ifs: &[Span],
    units: &[Unit],
) -> Result<Vec<Piece>, NoMemory>
    requires { name_end name.now < 2 ^ 32 }
    ensures { IfOk result (λ pieces. pieces.items ≡ spec.imports mode name.now ++ right_braces else_ifs.now ++ left_braces else_ifs.now ++ spec.counters units.now) }
{
    let mut pieces = Vec::new(alloc);
    if let Mode::Atomic = mode {
        pieces.push(Piece {
            at: name.at + name.text.bytes().len() as u32,
            addition: Addition::Import,
        })?;
    }
    add_right_braces(&mut pieces, else_ifs)?;
    add_left_braces(&mut pieces, else_ifs)?;
    add_counters(&mut pieces, units)?;
    Ok(pieces)
}

fn add_right_braces(pieces: &mut Vec<Piece>, else_ifs: &[Span]) -> Result<(), NoMemory>
    ensures { OnOk result (pieces.new.items ≡ pieces.old.items ++ right_braces else_ifs.now) }
{
    for span in else_ifs {
        pieces.push(Piece {
            at: span.end,
            addition: Addition::RightBrace,
        })?;
    }
    Ok(())
}

fn add_left_braces(pieces: &mut Vec<Piece>, else_ifs: &[Span]) -> Result<(), NoMemory>
    ensures { OnOk result (pieces.new.items ≡ pieces.old.items ++ left_braces else_ifs.now) }
{
    for span in else_ifs {
        pieces.push(Piece {
            at: span.start,
            addition: Addition::LeftBrace,
        })?;
    }
    Ok(())
}

fn add_counters(pieces: &mut Vec<Piece>, units: &[Unit]) -> Result<(), NoMemory>
    ensures { OnOk result (pieces.new.items ≡ pieces.old.items ++ spec.counters units.now) }
{
    for (i, unit) in units.iter().enumerate() {
        pieces.push(Piece {
            at: unit.insert,
            addition: Addition::Counter(i),
        })?;
    }
    Ok(())
}
