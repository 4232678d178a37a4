//! Laws of loading. The calls do nothing.
ghost use Rattle.std.specs.Prelude.{List, Ok};
ghost use Rattle.cov_outside.specs.Tree.{Tree};
ghost use Rattle.go_load.specs.Coverable.{ReadsCoverable};
ghost use Rattle.go_load.specs.Outcome.{LoadsOne, ReadsOne};
ghost use Rattle.go_load.specs.Packages.{Packages};
ghost use Rattle.go_load.specs.Reachable.{AreReached};
ghost use Rattle.go_load.specs.Sources.{ReadsSources};
ghost use Rattle.go_load.specs.declared.contents.Found.{Found as FoundValue};
ghost use Rattle.go_load.specs.declared.contents.Home.{Home as HomeValue};

use crate::coverable::CoverReader;
use crate::reader::ReadsSource;
use crate::sources::SourceReader;
use go_lex::laws::tokens_or_fault;
use go_reading::laws::{one_outcome as one_reading, one_tree};

/// Loading comes to one module or one refusal, where reading a source comes to one tree or one fault.
pub fn one_outcome<S: ReadsSource>(_reader: &S)
    ensures { ReadsOne (S.gives _reader.now) → LoadsOne (S.gives _reader.now) }
{}

/// The packages of a module are those that imports lead to from its directory, where reading a source comes to one tree or one
/// fault.
pub fn packages_are_reached<S: ReadsSource>(_reader: &S)
    ensures { ReadsOne (S.gives _reader.now) → (t : Tree) (home : HomeValue) (founds : List FoundValue) → Packages (S.gives _reader.now) t home (Ok founds) → AreReached (S.gives _reader.now) t home founds }
{}

/// A source comes to one tree or one fault, and a module of sources to one module or one refusal.
pub fn one_module()
    ensures sources { ReadsOne ReadsSources }
    ensures modules { LoadsOne ReadsSources }
{
    tokens_or_fault();
    one_tree();
    one_reading();
    one_outcome(&SourceReader);
}

/// The same of sources of covered modules.
pub fn one_coverable_module()
    ensures sources { ReadsOne ReadsCoverable }
    ensures modules { LoadsOne ReadsCoverable }
{
    tokens_or_fault();
    one_tree();
    one_reading();
    one_outcome(&CoverReader);
}
