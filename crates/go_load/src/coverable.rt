//! Loading modules whose covered texts will run.
ghost use Rattle.std.specs.Prelude.{◌≡◌, ◌≤◌, ◌^◌, IfErr, IfOk, IfSome, MatchResult, length};
ghost use Rattle.go_ast.specs.Tokens.{HasTokens};
ghost use Rattle.go_grammar.specs.Blocks.{source};
ghost use Rattle.go_grammar.specs.Files.{SpellsWithin};
ghost use Rattle.go_grammar.specs.Words.{words_of};
ghost use Rattle.go_load.specs.Coverable as spec;
ghost use Rattle.go_load.specs.CoverNames.{first_cover_name as first_of};
ghost use Rattle.go_load.specs.Loading.{AreRead, Loads};
ghost use Rattle.go_load.specs.Refusals.{Answers, CountsRead};
ghost use Rattle.go_load.specs.Sources.{ReadsSources};
ghost use Rattle.go_parse.specs.Answers.{IsWithin, source_fault};

use crate::by_reader::load_by;
use crate::cover_names::first_cover_name;
use crate::loaded::Loaded;
use crate::reader::{ReadFault, ReadsSource};
use crate::refusal::LoadRefusal;
use crate::sources::read_fault;
use cov_outside::Files;
use go_ast::{File, SourceKind, Token};
use go_lex::{LexFault, lex};
use go_parse::{SourceFault, parse_tokens};
use go_spans::laws::faults_stand_in_text;
use std::alloc::Global;

/// Reads sources by the grammar of source files, and refuses names that the covered text gives a meaning.
#[derive(Clone, Copy, Debug)]
pub struct CoverReader;

fn lexical(fault: LexFault) -> SourceFault
    ensures { result ≡ source_fault fault }
{
    match fault {
        LexFault::At { offset, kind } => SourceFault::At {
            offset,
            kind: SourceKind::from(kind),
        },
        LexFault::NoMemory => SourceFault::NoMemory,
    }
}

/// The tree of a source with these tokens, or the first fault: `CoverName`, or that of parsing.
fn read_tokens(alloc: Global, text: &[u8], tokens: &[Token]) -> Result<File, SourceFault>
    requires short { length text.now ≤ 2 ^ 31 }
    requires tokens { HasTokens text.now tokens.now }
    ensures told { spec.TokensComeTo text.now tokens.now (first_of text.now tokens.now) result }
    ensures within { IfErr result (IsWithin (length text.now)) }
{
    if let Some(token) = first_cover_name(text, tokens) {
        return Err(SourceFault::At {
            offset: token.span.start,
            kind: SourceKind::CoverName,
        });
    }
    parse_tokens(alloc, text, tokens)
}

/// The tree of a source, or the first fault: of lexing, `CoverName`, of parsing.
fn read_coverable(alloc: Global, text: &[u8]) -> Result<File, SourceFault>
    requires { length text.now ≤ 2 ^ 31 }
    ensures told { MatchResult result (spec.IsCoverable text.now) (spec.RefusesCover text.now) }
    ensures within { IfErr result (IsWithin (length text.now)) }
{
    faults_stand_in_text();
    match lex(alloc, text) {
        Ok(tokens) => read_tokens(alloc, text, &tokens),
        Err(fault) => Err(lexical(fault)),
    }
}

impl ReadsSource for CoverReader {
    ghost gives = { λ _ text result. spec.ReadsCoverable text result };

    fn read(&self, alloc: Global, text: &[u8]) -> Result<File, ReadFault> {
        match read_coverable(alloc, text) {
            Ok(file) => Ok(file),
            Err(fault) => Err(read_fault(fault)),
        }
    }
}

/// Loads the module in a directory as `load` does, and refuses besides an identifier that begins with `_cover_atomic_`, or is
/// `GoCover_` and a number in decimal, as `CoverName`: in each file behind faults of lexing, before those of parsing.
pub fn load_for_cover<F: Files>(
    alloc: Global,
    files: &mut F,
    root: &str,
) -> Result<Loaded, LoadRefusal>
    ensures told { IfSome (F.tree files.old) (λ t. Answers (λ l. l) result (Loads spec.ReadsCoverable t root.now)) }
    ensures read { IfOk result (AreRead ReadsSources) }
    ensures same { F.tree files.new ≡ F.tree files.old }
    ensures cause { CountsRead (F.read_faults files.old) (F.read_faults files.new) result }
    ensures puts { F.put_faults files.new ≡ F.put_faults files.old }
{
    load_by(alloc, files, &CoverReader, root)
}
