//! Pods that tests make.
ghost use Rattle.std.specs.Prelude.{◌≡◌, IfOk, length, map};

use cov_meta::{Meta, MetaFile, MetaFunction, MetaPackage, MetaUnit, Place2};
use cov_outside::{Mode, NoMemory, Sequence, Text};
use cov_pods::{DecodedPod, Pod};
use std::alloc::Global;

/// Start line and column, end line and column, statements, count.
pub type ShownUnit = (u32, u32, u32, u32, u32, u32);

pub struct ShownFunction {
    pub name: &'static [u8],
    pub file: &'static [u8],
    pub literal: bool,
    pub units: &'static [ShownUnit],
}

/// A package `main` of a module.
pub struct ShownPackage {
    pub path: &'static [u8],
    pub module: &'static [u8],
    pub functions: &'static [ShownFunction],
}

fn place(line: u32, column: u32) -> Place2 {
    Place2 { line, column }
}

/// A function, and the counts of its units.
fn function(alloc: Global, shown: &ShownFunction) -> Result<(MetaFunction, Sequence<u32>), NoMemory>
    ensures { IfOk result (λ r. length r.1 ≡ length r.0.units) }
{
    let mut units = Sequence::new(alloc);
    let mut counts = Sequence::new(alloc);
    for (line, column, end_line, end_column, statements, count) in shown.units {
        units.push(MetaUnit {
            start: place(*line, *column),
            end: place(*end_line, *end_column),
            statements: *statements,
        })?;
        counts.push(*count)?;
    }
    let function = MetaFunction {
        name: Text::of(alloc, shown.name)?,
        file: Text::of(alloc, shown.file)?,
        literal: shown.literal,
        units,
    };
    Ok((function, counts))
}

/// A package, and the counts of its functions' units.
fn package(
    alloc: Global,
    shown: &ShownPackage,
) -> Result<(MetaPackage, Sequence<Sequence<u32>>), NoMemory>
    ensures { IfOk result (λ r. map length r.1 ≡ map (λ f. length f.units) r.0.functions) }
{
    let mut functions = Sequence::new(alloc);
    let mut counts = Sequence::new(alloc);
    for shown in shown.functions {
        let (function, unit_counts) = function(alloc, shown)?;
        functions.push(function)?;
        counts.push(unit_counts)?;
    }
    let package = MetaPackage {
        name: Text::of(alloc, b"main")?,
        path: Text::of(alloc, shown.path)?,
        module: Text::of(alloc, shown.module)?,
        functions,
    };
    Ok((package, counts))
}

/// A pod of packages in mode set, without counter files. Its hash is `h`.
pub fn pod(alloc: Global, shown: &[ShownPackage]) -> Result<DecodedPod, NoMemory> {
    let mut packages = Sequence::new(alloc);
    let mut counts = Sequence::new(alloc);
    for shown in shown {
        let (package, function_counts) = package(alloc, shown)?;
        packages.push(package)?;
        counts.push(function_counts)?;
    }
    Ok(DecodedPod {
        pod: Pod {
            hash: Text::of(alloc, b"h")?,
            meta: Text::of(alloc, b"")?,
            counters: Sequence::new(alloc),
        },
        bytes: Sequence::new(alloc),
        file: MetaFile {
            hash: [0; 16],
            meta: Meta {
                mode: Mode::Set,
                packages,
            },
        },
        counts,
        heads: Sequence::new(alloc),
    })
}
