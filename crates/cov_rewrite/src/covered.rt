//! Covered texts.
ghost use Rattle.std.specs.Prelude.{◌≡◌, ◌++◌, ◌≤◌, ◌^◌, length, IfOk, OnOk};
ghost use Rattle.cov_rewrite.specs.Covered as spec;
ghost use Rattle.cov_rewrite.specs.Covered.{StandsIn};
ghost use Rattle.cov_rewrite.specs.Coming.{rewritten};

use crate::piece::pieces_of;
use crate::trailer::push_trailer;
use crate::units::units_in;
use crate::weaving::weave;
use cov_cut::{cut, else_ifs};
use cov_outside::{Mode, NoMemory, Sequence};
use go_ast::{File, Lines};
use std::alloc::Global;

/// A covered text, and how many units it counts.
#[derive(Debug, Drop)]
pub struct Rewritten {
    pub text: Sequence<u8>,
    pub units: usize,
}

/// The covered text of a source with its tree: a line that gives the file's name, the source with counters put in, and
/// the declaration of the variable that has the counters.
pub fn covered_text(
    alloc: Global,
    text: &[u8],
    file: &File,
    name: &[u8],
    var: &[u8],
    mode: Mode,
) -> Result<Vec<u8>, NoMemory>
    requires short { length text.now ≤ 2 ^ 31 }
    requires stands { StandsIn text.now file.now }
    ensures { IfOk result (λ covered. covered.items ≡ spec.covered text.now file.now name.now var.now mode) }
{
    let all = counted_text(alloc, text, file, name, var, mode)?;
    Ok(all.text.into_vec())
}

/// The same with the number of its units.
pub fn counted_text(
    alloc: Global,
    text: &[u8],
    file: &File,
    name: &[u8],
    var: &[u8],
    mode: Mode,
) -> Result<Rewritten, NoMemory>
    requires short { length text.now ≤ 2 ^ 31 }
    requires stands { StandsIn text.now file.now }
    ensures { IfOk result (λ all. all ≡ rewritten text.now file.now name.now var.now mode) }
{
    let functions = cut(alloc, file)?;
    let units = units_in(alloc, &functions)?;
    let else_ifs = else_ifs(alloc, file)?;
    let mut pieces = pieces_of(alloc, mode, &file.package, &else_ifs, &units)?;
    let lines = Lines::new(alloc, text)?;
    let mut covered = Vec::new(alloc);
    push_line_directive(&mut covered, name)?;
    weave(&mut covered, var, mode, &mut pieces, text)?;
    push_trailer(&mut covered, &lines, var, mode, &units)?;
    Ok(Rewritten {
        text: Sequence::from_vec(covered),
        units: units.len(),
    })
}

/// Appends the line from which places are counted.
fn push_line_directive(covered: &mut Vec<u8>, name: &[u8]) -> Result<(), NoMemory>
    ensures { OnOk result (covered.new.items ≡ covered.old.items ++ spec.line_directive name.now) }
{
    covered.extend_from_slice(b"//line ")?;
    covered.extend_from_slice(name)?;
    covered.extend_from_slice(b":1:1\n")?;
    Ok(())
}
