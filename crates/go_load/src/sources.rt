//! Loading modules of sources.
ghost use Rattle.std.specs.Prelude.{◌≡◌, IfOk, IfSome};
ghost use Rattle.go_load.specs.Loading.{AreRead, Loads};
ghost use Rattle.go_load.specs.Refusals.{Answers, CountsRead};
ghost use Rattle.go_load.specs.Sources as spec;

use crate::by_reader::load_by;
use crate::loaded::Loaded;
use crate::reader::{ReadFault, ReadsSource};
use crate::refusal::LoadRefusal;
use cov_outside::{Files, Which};
use go_ast::File;
use go_parse::{SourceFault, WhichSource, parse};
use std::alloc::Global;

/// Reads sources by the grammar of source files.
#[derive(Clone, Copy, Debug)]
pub struct SourceReader;

pub(crate) fn read_fault(fault: SourceFault) -> ReadFault
    ensures { result ≡ spec.read_fault fault }
{
    match fault {
        SourceFault::At { offset, kind } => ReadFault::At { offset, kind },
        SourceFault::Limit(WhichSource::SelectClauses) => ReadFault::Limit(Which::SelectClauses),
        SourceFault::Limit(WhichSource::Depth) => ReadFault::Limit(Which::Depth),
        SourceFault::NoMemory => ReadFault::NoMemory,
    }
}

impl ReadsSource for SourceReader {
    ghost gives = { λ _ text result. spec.ReadsSources text result };

    fn read(&self, alloc: Global, text: &[u8]) -> Result<File, ReadFault> {
        match parse(alloc, text) {
            Ok(file) => Ok(file),
            Err(fault) => Err(read_fault(fault)),
        }
    }
}

/// Loads the module in a directory: `go.mod`, the packages and their files, in load order.
///
/// Else the first refusal: the form of `go.mod`; then package by package, each where it is first imported, its directory, its
/// files in order of name and what they import; then the least cycle of imports.
pub fn load<F: Files>(alloc: Global, files: &mut F, root: &str) -> Result<Loaded, LoadRefusal>
    ensures told { IfSome (F.tree files.old) (λ t. Answers (λ l. l) result (Loads spec.ReadsSources t root.now)) }
    ensures read { IfOk result (AreRead spec.ReadsSources) }
    ensures same { F.tree files.new ≡ F.tree files.old }
    ensures cause { CountsRead (F.read_faults files.old) (F.read_faults files.new) result }
    ensures puts { F.put_faults files.new ≡ F.put_faults files.old }
{
    load_by(alloc, files, &SourceReader, root)
}
