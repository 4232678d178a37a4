//! The share of each function.
ghost use Rattle.std.specs.Prelude.{◌≡◌, ◌++◌, ◌<◌, ◌^◌, All, IfOk, OnOk, map};
ghost use Rattle.std.specs.List.{flat_map};
ghost use Rattle.cov_report.specs.FunctionLines.{part_text, total_text, func_text_of};
ghost use Rattle.cov_report.specs.FunctionSums.{named_sum, sum_line, IsSmall};

use crate::filter::Filter;
use crate::function_sums::{FunctionName, FunctionSum, FunctionSums, sum_functions, total_of};
use crate::number::push_number;
use crate::share::{Share, push_percent};
use cov_outside::NoMemory;
use cov_table::Table;
use std::alloc::Global;

/// Appends a part of a whole in percent; 0.0% where there are no statements.
fn push_part(text: &mut Vec<u8>, share: &Share) -> Result<(), NoMemory>
    requires { (share.now.statements < 2 ^ 100) × (share.now.covered < 2 ^ 100) }
    ensures { OnOk result (text.new.items ≡ text.old.items ++ part_text share.now.covered share.now.statements) }
{
    if share.statements == 0 {
        text.extend_from_slice(b"0.0%")?;
        return Ok(());
    }
    push_percent(text, share.covered, share.statements)
}

/// Appends the line of a function.
fn push_function(
    text: &mut Vec<u8>,
    name: &FunctionName<'_>,
    sum: &FunctionSum,
) -> Result<(), NoMemory>
    requires { IsSmall sum.now }
    ensures { OnOk result (text.new.items ≡ text.old.items ++ sum_line (named_sum (name.now, sum.now))) }
{
    text.extend_from_slice(name.file)?;
    text.push(b':')?;
    push_number(text, sum.start_line)?;
    text.extend_from_slice(b":\t")?;
    text.extend_from_slice(name.function)?;
    text.push(b'\t')?;
    push_part(text, &sum.share)?;
    text.push(b'\n')?;
    Ok(())
}

fn push_functions(text: &mut Vec<u8>, functions: &FunctionSums<'_>) -> Result<(), NoMemory>
    requires { All (λ e. IsSmall e.1) functions.now.entries }
    ensures { OnOk result (text.new.items ≡ text.old.items ++ flat_map sum_line (map named_sum functions.now.entries)) }
{
    for (name, sum) in functions.iter() {
        push_function(text, name, sum)?;
    }
    Ok(())
}

/// Appends the line of all functions together.
fn push_total(text: &mut Vec<u8>, total: &Share) -> Result<(), NoMemory>
    requires { (total.now.statements < 2 ^ 100) × (total.now.covered < 2 ^ 100) }
    ensures { OnOk result (text.new.items ≡ text.old.items ++ total_text total.now.covered total.now.statements) }
{
    text.extend_from_slice(b"total\t(statements)\t")?;
    push_part(text, total)?;
    text.push(b'\n')?;
    Ok(())
}

/// How much of each function's statements ran, a line each, in the order of their first units. Then the total.
pub fn func_report(alloc: Global, table: &Table, filter: &Filter) -> Result<Vec<u8>, NoMemory>
    ensures { IfOk result (λ text. text.items ≡ func_text_of table.now filter.now.patterns) }
{
    let units = table.units(alloc)?;
    let total = total_of(&units, filter);
    let functions = sum_functions(alloc, &units, filter)?;
    let mut text = Vec::new(alloc);
    push_functions(&mut text, &functions)?;
    push_total(&mut text, &total)?;
    Ok(text)
}
