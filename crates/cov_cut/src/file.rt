//! Units of a file.
ghost use Rattle.std.specs.Prelude.{◌≡◌, ◌++◌, All, IfOk, OnOk, map};
ghost use Rattle.cov_cut.specs.Units as spec;
ghost use Rattle.cov_cut.specs.Units.{units_of, cut_in, func_units, func_lists, Fits, IsWithin};

use crate::unit::FuncUnits;
use crate::walk::cut_block;
use go_ast::{Decl, File, Func, NoMemory};
use sqlite_items::Items;
use std::alloc::Global;

/// The units of the functions of a file, in source order. Functions named `_` have none and are left out.
pub fn cut(alloc: Global, file: &File) -> Result<Vec<FuncUnits>, NoMemory>
    requires { IsWithin file.now }
    ensures { IfOk result (λ functions. functions.items ≡ units_of file.now) }
{
    let mut functions = Vec::new(alloc);
    for decl in file.decls.as_slice() {
        cut_decl(alloc, &mut functions, decl)?;
    }
    Ok(functions)
}

/// Appends the units of a declaration, if it is a function that is cut.
fn cut_decl(alloc: Global, functions: &mut Vec<FuncUnits>, decl: &Decl) -> Result<(), NoMemory>
    requires { All (λ f. All Fits (func_lists f)) (cut_in decl.now) }
    ensures { OnOk result (functions.new.items ≡ functions.old.items ++ map func_units (cut_in decl.now)) }
{
    match decl {
        Decl::Func(f) if is_cut(f) => {
            functions.push(cut_func(alloc, f)?)?;
            Ok(())
        }
        _ => Ok(()),
    }
}

pub fn is_cut(f: &Func) -> bool
    ensures { result ≡ spec.is_cut f.now }
{
    f.name.text.bytes() != b"_".as_slice()
}

#[tactic(auto, using(crate::proofs::Walks::func_lists_are))]
fn cut_func(alloc: Global, f: &Func) -> Result<FuncUnits, NoMemory>
    requires { All Fits (func_lists f.now) }
    ensures { IfOk result (λ units. units ≡ func_units f.now) }
{
    let mut units = Items::new(alloc);
    cut_block(&mut units, &f.body)?;
    Ok(FuncUnits {
        name: f.name.text.clone()?,
        units,
    })
}
