//! The records of functions, as they are written.
ghost use Rattle.std.specs.Prelude.{◌≡◌, ◌≤◌, ◌<◌, ◌+◌, ◌*◌, ◌^◌, ◌++◌, length, map, flat_map, All, OnOk, IfOk};
ghost use Rattle.std.specs.List.{concat};
ghost use Rattle.cov_bytes.specs.Writing.{uleb_of};
ghost use Rattle.cov_meta.specs.Spelling.{unit_numbers};
ghost use Rattle.cov_meta.specs.Written.{UnitsFit, record_numbers, record_text, with_texts, function_texts};

use crate::meta::{MetaFunction, MetaUnit};
use cov_bytes::{Bytes, StringTable};
use cov_outside::NoMemory;
use std::alloc::Global;

/// Records one after the other, and how many bytes each has.
#[derive(Drop)]
pub struct Records {
    pub bytes: Bytes,
    pub lengths: Vec<u32>,
}

/// The records of functions, whose texts join the table.
pub fn write_records(
    alloc: Global,
    table: &mut StringTable,
    functions: &[MetaFunction],
) -> Result<Records, NoMemory>
    requires few_texts { length table.old ≤ 3 }
    requires few_functions { length functions.now ≤ 1048576 }
    requires few_units { All (λ f. length f.units ≤ 1048576) functions.now }
    requires small { let texts = with_texts table.old (flat_map function_texts functions.now) in
        length (concat (map (record_text texts) functions.now)) < 2 ^ 32 }
    ensures texts { OnOk result (table.new ≡ with_texts table.old (flat_map function_texts functions.now)) }
    ensures bytes { IfOk result (λ r. r.bytes ≡ concat (map (record_text table.new) functions.now)) }
    ensures lengths { IfOk result
        (λ r. r.lengths.items ≡ map length (map (record_text table.new) functions.now)) }
    ensures fits { OnOk result (All UnitsFit functions.now) }
{
    let mut bytes = Bytes::new(alloc);
    let mut lengths = Vec::new(alloc);
    for function in functions {
        let start = bytes.len();
        let name = table.intern(function.name.bytes())?;
        let file = table.intern(function.file.bytes())?;
        push_record(&mut bytes, name, file, function)?;
        lengths.push((bytes.len() - start) as u32)?;
    }
    Ok(Records { bytes, lengths })
}

fn push_record(
    bytes: &mut Bytes,
    name: u32,
    file: u32,
    function: &MetaFunction,
) -> Result<(), NoMemory>
    requires { length function.now.units ≤ 1048576 }
    ensures bytes { OnOk result (bytes.new
        ≡ bytes.old ++ flat_map uleb_of (record_numbers name file function.now)) }
    ensures fits { OnOk result (UnitsFit function.now) }
{
    bytes.push_uleb(function.units.len() as u32)?;
    bytes.push_uleb(name)?;
    bytes.push_uleb(file)?;
    push_units(bytes, function.units.as_slice())?;
    bytes.push_uleb(u32::from(function.literal))?;
    Ok(())
}

fn push_units(bytes: &mut Bytes, units: &[MetaUnit]) -> Result<(), NoMemory>
    ensures bytes { OnOk result (bytes.new
        ≡ bytes.old ++ flat_map uleb_of (flat_map unit_numbers units.now)) }
    ensures fits { OnOk result (All (λ n. n < 2 ^ 32) (flat_map unit_numbers units.now)) }
{
    for unit in units {
        push_unit(bytes, unit)?;
    }
    Ok(())
}

fn push_unit(bytes: &mut Bytes, unit: &MetaUnit) -> Result<(), NoMemory>
    ensures bytes { OnOk result (bytes.new ≡ bytes.old ++ flat_map uleb_of (unit_numbers unit.now)) }
    ensures fits { OnOk result (All (λ n. n < 2 ^ 32) (unit_numbers unit.now)) }
{
    bytes.push_uleb(unit.start.line)?;
    bytes.push_uleb(unit.start.column)?;
    bytes.push_uleb(unit.end.line)?;
    bytes.push_uleb(unit.end.column)?;
    bytes.push_uleb(unit.statements)?;
    Ok(())
}
