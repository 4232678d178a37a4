//! The text profile.
ghost use Rattle.std.specs.Prelude.{◌≡◌, ◌++◌, ◌∷◌, [], IfOk, OnOk, decimal};
ghost use Rattle.std.specs.List.{flat_map};
ghost use Rattle.cov_table.specs.Unit.{unit_entry};
ghost use Rattle.cov_report.specs.TextProfile.{place_text, unit_line, kept_units, text_profile_of};

use crate::filter::Filter;
use crate::number::push_number;
use cov_outside::NoMemory;
use cov_table::{Table, Unit, Units};
use std::alloc::Global;

/// Appends a line and a column with a dot between them.
pub fn push_place(text: &mut Vec<u8>, line: u32, column: u32) -> Result<(), NoMemory>
    ensures { OnOk result (text.new.items ≡ text.old.items ++ place_text line column) }
{
    push_number(text, line)?;
    text.push(b'.')?;
    push_number(text, column)
}

/// Appends the line of a unit: its file, where it starts and ends, its statements and its count.
fn push_unit(text: &mut Vec<u8>, unit: &Unit<'_>) -> Result<(), NoMemory>
    ensures { OnOk result (text.new.items ≡ text.old.items ++ unit_line (unit_entry unit.now)) }
{
    text.extend_from_slice(unit.file)?;
    text.push(b':')?;
    push_place(text, unit.start_line, unit.start_column)?;
    text.push(b',')?;
    push_place(text, unit.end_line, unit.end_column)?;
    text.push(b' ')?;
    push_number(text, unit.statements)?;
    text.push(b' ')?;
    push_number(text, unit.count)?;
    text.push(b'\n')?;
    Ok(())
}

/// Appends the line of a unit whose package is kept.
fn push_kept(text: &mut Vec<u8>, unit: &Unit<'_>, filter: &Filter) -> Result<(), NoMemory>
    ensures { OnOk result (text.new.items ≡ text.old.items ++ flat_map unit_line (kept_units filter.now.patterns (unit_entry unit.now ∷ []))) }
{
    if filter.keeps(unit.package_path) {
        push_unit(text, unit)?;
    }
    Ok(())
}

/// Appends the lines of the units whose packages are kept.
fn push_units(text: &mut Vec<u8>, units: &Units<'_>, filter: &Filter) -> Result<(), NoMemory>
    ensures { OnOk result (text.new.items ≡ text.old.items ++ flat_map unit_line (kept_units filter.now.patterns units.now)) }
{
    for i in 0..units.len() {
        if let Some(unit) = units.get(i) {
            push_kept(text, &unit, filter)?;
        }
    }
    Ok(())
}

/// The text profile of a table: its mode, and a line for each unit in order. An empty table has no bytes.
pub fn textfmt(alloc: Global, table: &Table, filter: &Filter) -> Result<Vec<u8>, NoMemory>
    ensures { IfOk result (λ text. text.items ≡ text_profile_of table.now filter.now.patterns) }
{
    let mut text = Vec::new(alloc);
    let Some(mode) = table.mode() else {
        return Ok(text);
    };
    text.extend_from_slice(b"mode: ")?;
    text.extend_from_slice(mode.name())?;
    text.push(b'\n')?;
    push_units(&mut text, &table.units(alloc)?, filter)?;
    Ok(text)
}
