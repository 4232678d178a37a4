//! The trailer of a covered text.
ghost use Rattle.std.specs.Prelude.{◌≡◌, ◌++◌, ◌≤◌, ◌^◌, List, ℕ, All, length, OnOk};
ghost use Rattle.std.specs.List.{flat_map, enumerate_from};
ghost use Rattle.go_ast.specs.Places.{line_starts};
ghost use Rattle.cov_rewrite.specs.Trailer as spec;
ghost use Rattle.cov_rewrite.specs.Trailer.{unit_place_line, unit_statements_line};

use crate::number::{push_hexadecimal, push_number};
use cov_cut::Unit;
use cov_outside::{Mode, NoMemory};
use go_ast::{Lines, Place};

/// The greatest number of statements that a trailer has for a unit.
const MOST_STATEMENTS: u32 = 65535;

/// Appends the trailer for units of the text with these lines.
pub fn push_trailer(
    covered: &mut Vec<u8>,
    lines: &Lines,
    var: &[u8],
    mode: Mode,
    units: &[Unit],
) -> Result<(), NoMemory>
    requires { All (λ u. (u.start ≤ 2 ^ 31) × (u.end ≤ 2 ^ 31)) units.now }
    ensures { (text : List ℕ) → lines.now ≡ line_starts text → All (λ u. (u.start ≤ length text) × (u.end ≤ length text)) units.now → OnOk result (covered.new.items ≡ covered.old.items ++ spec.trailer text var.now mode units.now) }
{
    push_type(covered, var, units.len())?;
    push_places(covered, lines, units)?;
    push_statements(covered, units)?;
    covered.extend_from_slice(use_line(mode))?;
    Ok(())
}

/// The line that uses the import of mode atomic, so that a file without units has a use of it.
fn use_line(mode: Mode) -> &'static [u8]
    ensures { result.now ≡ spec.use_text mode }
{
    match mode {
        Mode::Set | Mode::Count => b"",
        Mode::Atomic => b"var _ = _cover_atomic_.LoadUint32\n",
    }
}

/// Appends the variable and its type.
fn push_type(covered: &mut Vec<u8>, var: &[u8], count: usize) -> Result<(), NoMemory>
    ensures { OnOk result (covered.new.items ≡ covered.old.items ++ spec.type_text var.now count) }
{
    covered.extend_from_slice(b"\nvar ")?;
    covered.extend_from_slice(var)?;
    covered.extend_from_slice(b" = struct {\n\tCount [")?;
    push_number(covered, count)?;
    covered.extend_from_slice(b"]uint32\n\tPos [3 * ")?;
    push_number(covered, count)?;
    covered.extend_from_slice(b"]uint32\n\tNumStmt [")?;
    push_number(covered, count)?;
    covered.extend_from_slice(b"]uint16\n}{\n")?;
    Ok(())
}

/// Appends where the units stand.
fn push_places(covered: &mut Vec<u8>, lines: &Lines, units: &[Unit]) -> Result<(), NoMemory>
    requires { All (λ u. (u.start ≤ 2 ^ 31) × (u.end ≤ 2 ^ 31)) units.now }
    ensures { (text : List ℕ) → lines.now ≡ line_starts text → All (λ u. (u.start ≤ length text) × (u.end ≤ length text)) units.now → OnOk result (covered.new.items ≡ covered.old.items ++ spec.places_text text units.now) }
{
    covered.extend_from_slice(b"\tPos: [3 * ")?;
    push_number(covered, units.len())?;
    covered.extend_from_slice(b"]uint32{\n")?;
    push_place_lines(covered, lines, units)?;
    covered.extend_from_slice(b"\t},\n")?;
    Ok(())
}

fn push_place_lines(covered: &mut Vec<u8>, lines: &Lines, units: &[Unit]) -> Result<(), NoMemory>
    requires { All (λ u. (u.start ≤ 2 ^ 31) × (u.end ≤ 2 ^ 31)) units.now }
    ensures { (text : List ℕ) → lines.now ≡ line_starts text → All (λ u. (u.start ≤ length text) × (u.end ≤ length text)) units.now → OnOk result (covered.new.items ≡ covered.old.items ++ flat_map (unit_place_line text) (enumerate_from 0 units.now)) }
{
    for (i, unit) in units.iter().enumerate() {
        let start = lines.place(unit.start as usize);
        let end = lines.place(unit.end as usize);
        push_place(covered, i, start, end)?;
    }
    Ok(())
}

/// Appends the line of a unit with this number that starts and ends at these places.
fn push_place(covered: &mut Vec<u8>, i: usize, start: Place, end: Place) -> Result<(), NoMemory>
    ensures { OnOk result (covered.new.items ≡ covered.old.items ++ spec.place_line i start end) }
{
    covered.extend_from_slice(b"\t\t")?;
    push_number(covered, start.line)?;
    covered.extend_from_slice(b", ")?;
    push_number(covered, end.line)?;
    covered.extend_from_slice(b", 0x")?;
    push_hexadecimal(covered, columns(start, end))?;
    covered.extend_from_slice(b", // [")?;
    push_number(covered, i)?;
    covered.extend_from_slice(b"]\n")?;
    Ok(())
}

/// The columns where a unit ends and starts, 16 bits of each.
fn columns(start: Place, end: Place) -> u32
    ensures { result ≡ spec.columns start end }
{
    (end.column % 65536) * 65536 + start.column % 65536
}

/// Appends the numbers of statements.
fn push_statements(covered: &mut Vec<u8>, units: &[Unit]) -> Result<(), NoMemory>
    ensures { OnOk result (covered.new.items ≡ covered.old.items ++ spec.statements_text units.now) }
{
    covered.extend_from_slice(b"\tNumStmt: [")?;
    push_number(covered, units.len())?;
    covered.extend_from_slice(b"]uint16{\n")?;
    push_statement_lines(covered, units)?;
    covered.extend_from_slice(b"\t},\n}\n")?;
    Ok(())
}

fn push_statement_lines(covered: &mut Vec<u8>, units: &[Unit]) -> Result<(), NoMemory>
    ensures { OnOk result (covered.new.items ≡ covered.old.items ++ flat_map unit_statements_line (enumerate_from 0 units.now)) }
{
    for (i, unit) in units.iter().enumerate() {
        push_statement_line(covered, i, unit.statements)?;
    }
    Ok(())
}

fn push_statement_line(covered: &mut Vec<u8>, i: usize, statements: u32) -> Result<(), NoMemory>
    ensures { OnOk result (covered.new.items ≡ covered.old.items ++ spec.statements_line i statements) }
{
    covered.extend_from_slice(b"\t\t")?;
    push_number(covered, statements.min(MOST_STATEMENTS))?;
    covered.extend_from_slice(b", // ")?;
    push_number(covered, i)?;
    covered.push(b'\n')?;
    Ok(())
}
