//! What pods hold.
ghost use Rattle.std.specs.Prelude.{◌≡◌, ◌++◌, IfOk, OnOk};
ghost use Rattle.std.specs.List.{zip, flat_map};
ghost use Rattle.cov_report.specs.Dump as dump;
ghost use Rattle.cov_report.specs.Dump.{numbered, unit_dump, function_head, function_dump, package_head, package_dump, counter_line, pod_line, pod_dump, dump_of};

use crate::filter::Filter;
use crate::number::push_number;
use crate::text_profile::push_place;
use cov_counter::Head;
use cov_meta::{MetaFunction, MetaPackage, MetaUnit};
use cov_outside::{NoMemory, Sequence, Text};
use cov_pods::DecodedPod;
use std::alloc::Global;

/// Appends a word and a number behind it, with a space after each.
fn push_numbered(text: &mut Vec<u8>, word: &[u8], i: usize) -> Result<(), NoMemory>
    ensures { OnOk result (text.new.items ≡ text.old.items ++ dump.numbered_word word.now i) }
{
    text.extend_from_slice(word)?;
    text.push(b' ')?;
    push_number(text, i)?;
    text.push(b' ')?;
    Ok(())
}

/// Appends the line of a unit with its count.
fn push_unit(text: &mut Vec<u8>, i: usize, unit: &MetaUnit, count: u32) -> Result<(), NoMemory>
    ensures { OnOk result (text.new.items ≡ text.old.items ++ unit_dump (i, (unit.now, count))) }
{
    push_numbered(text, b"unit", i)?;
    push_place(text, unit.start.line, unit.start.column)?;
    text.push(b',')?;
    push_place(text, unit.end.line, unit.end.column)?;
    text.push(b' ')?;
    push_number(text, unit.statements)?;
    text.push(b' ')?;
    push_number(text, count)?;
    text.push(b'\n')?;
    Ok(())
}

fn push_units(text: &mut Vec<u8>, units: &[MetaUnit], counts: &[u32]) -> Result<(), NoMemory>
    ensures { OnOk result (text.new.items ≡ text.old.items ++ flat_map unit_dump (numbered units.now counts.now)) }
{
    for (i, (unit, count)) in units.iter().zip(counts).enumerate() {
        push_unit(text, i, unit, *count)?;
    }
    Ok(())
}

/// Appends the line of a function.
fn push_function_head(text: &mut Vec<u8>, i: usize, function: &MetaFunction) -> Result<(), NoMemory>
    ensures { OnOk result (text.new.items ≡ text.old.items ++ function_head i function.now) }
{
    push_numbered(text, b"function", i)?;
    text.extend_from_slice(function.name.bytes())?;
    text.push(b' ')?;
    text.extend_from_slice(function.file.bytes())?;
    text.extend_from_slice(if function.literal { b" 1\n" } else { b" 0\n" })?;
    Ok(())
}

/// Appends the lines of a function and its units.
fn push_function(
    text: &mut Vec<u8>,
    i: usize,
    function: &MetaFunction,
    counts: &[u32],
) -> Result<(), NoMemory>
    ensures { OnOk result (text.new.items ≡ text.old.items ++ function_dump (i, (function.now, counts.now))) }
{
    push_function_head(text, i, function)?;
    push_units(text, function.units.as_slice(), counts)
}

fn push_functions(
    text: &mut Vec<u8>,
    functions: &[MetaFunction],
    counts: &[Sequence<u32>],
) -> Result<(), NoMemory>
    ensures { OnOk result (text.new.items ≡ text.old.items ++ flat_map function_dump (numbered functions.now counts.now)) }
{
    for (i, (function, counts)) in functions.iter().zip(counts).enumerate() {
        push_function(text, i, function, counts.as_slice())?;
    }
    Ok(())
}

/// Appends the line of a package.
fn push_package_head(text: &mut Vec<u8>, i: usize, package: &MetaPackage) -> Result<(), NoMemory>
    ensures { OnOk result (text.new.items ≡ text.old.items ++ package_head i «package».now) }
{
    push_numbered(text, b"package", i)?;
    text.extend_from_slice(package.name.bytes())?;
    text.push(b' ')?;
    text.extend_from_slice(package.path.bytes())?;
    text.push(b' ')?;
    text.extend_from_slice(package.module.bytes())?;
    text.push(b'\n')?;
    Ok(())
}

/// Appends the lines of a package that is kept, and of its functions.
fn push_package(
    text: &mut Vec<u8>,
    i: usize,
    package: &MetaPackage,
    counts: &[Sequence<u32>],
    filter: &Filter,
) -> Result<(), NoMemory>
    ensures { OnOk result (text.new.items ≡ text.old.items ++ package_dump filter.now.patterns (i, («package».now, counts.now))) }
{
    if !filter.keeps(package.path.bytes()) {
        return Ok(());
    }
    push_package_head(text, i, package)?;
    push_functions(text, package.functions.as_slice(), counts)
}

fn push_packages(
    text: &mut Vec<u8>,
    packages: &[MetaPackage],
    counts: &[Sequence<Sequence<u32>>],
    filter: &Filter,
) -> Result<(), NoMemory>
    ensures { OnOk result (text.new.items ≡ text.old.items ++ flat_map (package_dump filter.now.patterns) (numbered packages.now counts.now)) }
{
    for (i, (package, counts)) in packages.iter().zip(counts).enumerate() {
        push_package(text, i, package, counts.as_slice(), filter)?;
    }
    Ok(())
}

/// The name of a file: what stands behind the last slash of its path.
fn file_name(path: &[u8]) -> &[u8]
    ensures { result.now ≡ dump.file_name path.now }
{
    let mut start = path.len();
    while start > 0 && path[start - 1] != b'/' {
        start -= 1;
    }
    &path[start..]
}

/// Appends the line of a counter file.
fn push_counter_file(text: &mut Vec<u8>, path: &[u8], head: &Head) -> Result<(), NoMemory>
    ensures { OnOk result (text.new.items ≡ text.old.items ++ counter_line (path.now, head.now)) }
{
    text.extend_from_slice(b"counters ")?;
    text.extend_from_slice(file_name(path))?;
    text.extend_from_slice(b" flavour ")?;
    push_number(text, head.flavour)?;
    text.extend_from_slice(b" functions ")?;
    push_number(text, head.entries)?;
    text.extend_from_slice(b" args ")?;
    push_number(text, head.args)?;
    text.push(b'\n')?;
    Ok(())
}

fn push_counter_files(text: &mut Vec<u8>, paths: &[Text], heads: &[Head]) -> Result<(), NoMemory>
    ensures { OnOk result (text.new.items ≡ text.old.items ++ flat_map counter_line (zip paths.now heads.now)) }
{
    for (path, head) in paths.iter().zip(heads) {
        push_counter_file(text, path.bytes(), head)?;
    }
    Ok(())
}

/// Appends the line of a pod: its hash and mode.
fn push_pod_line(text: &mut Vec<u8>, pod: &DecodedPod) -> Result<(), NoMemory>
    ensures { OnOk result (text.new.items ≡ text.old.items ++ pod_line pod.now) }
{
    text.extend_from_slice(b"pod ")?;
    text.extend_from_slice(pod.pod.hash.bytes())?;
    text.extend_from_slice(b" mode ")?;
    text.extend_from_slice(pod.file.meta.mode.name())?;
    text.push(b'\n')?;
    Ok(())
}

/// Appends the lines of a pod.
fn push_pod(text: &mut Vec<u8>, pod: &DecodedPod, filter: &Filter) -> Result<(), NoMemory>
    ensures { OnOk result (text.new.items ≡ text.old.items ++ pod_dump filter.now.patterns pod.now) }
{
    push_pod_line(text, pod)?;
    push_packages(
        text,
        pod.file.meta.packages.as_slice(),
        pod.counts.as_slice(),
        filter,
    )?;
    push_counter_files(text, pod.pod.counters.as_slice(), pod.heads.as_slice())
}

/// What each pod holds: its packages that are kept, with their functions and units, and its counter files.
///
/// Packages, functions and units are numbered from 0 within what they belong to, and a package that is left out has
/// its number too.
pub fn debugdump(alloc: Global, pods: &[DecodedPod], filter: &Filter) -> Result<Vec<u8>, NoMemory>
    ensures { IfOk result (λ text. text.items ≡ dump_of pods.now filter.now.patterns) }
{
    let mut text = Vec::new(alloc);
    for pod in pods {
        push_pod(&mut text, pod, filter)?;
    }
    Ok(text)
}
