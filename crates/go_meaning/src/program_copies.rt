//! Copies of what a program has besides its statements.
ghost use Rattle.std.specs.Prelude.{◌≡◌, IfOk};

use crate::copies::copy_value;
use crate::program::{Function, Global as PackageVariable, ProgramPackage};
use sqlite_items::Items;
use std::alloc::{AllocError, Global};

/// The same packages.
pub fn copy_packages(
    alloc: Global,
    packages: &[ProgramPackage],
) -> Result<Items<ProgramPackage>, AllocError>
    ensures { IfOk result (λ copies. copies ≡ packages.now) }
{
    let mut copies = Items::new(alloc);
    for package in packages {
        copies.push(ProgramPackage {
            path: package.path.clone()?,
            name: package.name.clone()?,
            functions: package.functions,
        })?;
    }
    Ok(copies)
}

/// The same functions.
pub fn copy_functions(alloc: Global, functions: &[Function]) -> Result<Items<Function>, AllocError>
    ensures { IfOk result (λ copies. copies ≡ functions.now) }
{
    let mut copies = Items::new(alloc);
    for function in functions {
        copies.push(Function {
            name: function.name.clone()?,
            params: function.params,
            results: function.results,
            slots: function.slots,
            body: function.body,
        })?;
    }
    Ok(copies)
}

fn copy_global(global: &PackageVariable) -> Result<PackageVariable, AllocError>
    ensures { IfOk result (λ copy. copy ≡ global.now) }
{
    Ok(match global {
        PackageVariable::Value(value) => PackageVariable::Value(copy_value(value)?),
        PackageVariable::Make { zero, capacity } => PackageVariable::Make {
            zero: copy_value(zero)?,
            capacity: *capacity,
        },
        PackageVariable::Mutex => PackageVariable::Mutex,
        PackageVariable::Group => PackageVariable::Group,
    })
}

/// The same package variables.
pub fn copy_globals(
    alloc: Global,
    globals: &[PackageVariable],
) -> Result<Items<PackageVariable>, AllocError>
    ensures { IfOk result (λ copies. copies ≡ globals.now) }
{
    let mut copies = Items::new(alloc);
    for global in globals {
        copies.push(copy_global(global)?)?;
    }
    Ok(copies)
}
