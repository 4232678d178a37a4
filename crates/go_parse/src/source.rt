//! From a text to its tree.
ghost use Rattle.std.specs.Prelude.{◌≡◌, ◌≤◌, ◌^◌, length, IfOk, IfErr, MatchResult};
ghost use Rattle.go_ast.specs.Tokens.{HasTokens};
ghost use Rattle.go_ast.specs.declared.file.File.{File as FileValue};
ghost use Rattle.go_grammar.specs.Words.{words_of};
ghost use Rattle.go_grammar.specs.Blocks.{source};
ghost use Rattle.go_grammar.specs.Files.{SpellsWithin};
ghost use Rattle.go_reading.specs.Outcomes.{IsFaultAt};
ghost use Rattle.go_parse.specs.Answers.{IsSource, IsFaultOf, IsWithin, Fails, source_fault};
ghost use Rattle.go_parse.specs.Answers.{offset_at as offset_of};

use crate::bounds::Bounds;
use crate::cursor::Tokens;
use crate::fault::{SourceFault, WhichSource};
use crate::file::file;
use go_ast::{File, SourceKind, Token};
use go_lex::laws::tokens_or_fault;
use go_lex::{LexFault, lex};
use go_reading::laws::{one_outcome, reading};
use go_reading::{Fault, ParseError};
use std::alloc::Global;

/// The limit of clauses.
const MOST: usize = 1000;

/// The limit of depth.
const DEPTH: usize = 1000;

/// The tree that a source spells.
///
/// Else the first fault of the text, its offset in bytes from 0: that of its lexing, or `Unexpected` at the first token such
/// that no source begins with the tokens up to it, the end being a token at the text's length; or the limit that is passed at
/// the first token such that sources begin with the tokens up to it, but none whose tree keeps the limit.
pub fn parse(alloc: Global, text: &[u8]) -> Result<File, SourceFault>
    requires { length text.now ≤ 2 ^ 31 }
    ensures tree { IfOk result (IsSource text.now) }
    ensures fault { IfErr result (Fails text.now) }
    ensures within { IfErr result (IsWithin (length text.now)) }
    ensures only { (file : FileValue) → IsSource text.now file → IfErr result (λ e. e ≡ SourceFault.NoMemory) }
{
    tokens_or_fault();
    one_outcome();
    match lex(alloc, text) {
        Ok(tokens) => parse_tokens(alloc, text, &tokens),
        Err(fault) => Err(lexical(fault)),
    }
}

/// A lexical fault as a fault of the source.
fn lexical(fault: LexFault) -> SourceFault
    ensures { result ≡ source_fault fault }
{
    match fault {
        LexFault::At { offset, kind } => SourceFault::At {
            offset,
            kind: SourceKind::from(kind),
        },
        LexFault::NoMemory => SourceFault::NoMemory,
    }
}

/// The offset of a token, or of the end.
fn offset_at(text: &[u8], tokens: &[Token], at: usize) -> u32
    requires { length text.now ≤ 2 ^ 31 }
    ensures { result ≡ offset_of text.now tokens.now at }
{
    match tokens.get(at) {
        Some(token) => token.span.start,
        None => text.len() as u32,
    }
}

/// The tree that the tokens of a source spell, or why they spell none within the limits, as `parse` tells it.
pub fn parse_tokens(alloc: Global, text: &[u8], tokens: &[Token]) -> Result<File, SourceFault>
    requires short { length text.now ≤ 2 ^ 31 }
    requires tokens { HasTokens text.now tokens.now }
    ensures answer { MatchResult result (λ file. SpellsWithin source 1000 1000 file (words_of text.now tokens.now)) (IsFaultOf text.now tokens.now) }
    ensures within { IfErr result (IsWithin (length text.now)) }
    ensures only { (file : FileValue) → SpellsWithin source 1000 1000 file (words_of text.now tokens.now) → IfErr result (λ e. e ≡ SourceFault.NoMemory) }
{
    one_outcome();
    read_all(alloc, text, tokens)
}

/// The tree that the tokens spell, or why they spell none.
fn read_all(alloc: Global, text: &[u8], tokens: &[Token]) -> Result<File, SourceFault>
    requires short { length text.now ≤ 2 ^ 31 }
    requires tokens { HasTokens text.now tokens.now }
    ensures { MatchResult result (λ file. SpellsWithin source 1000 1000 file (words_of text.now tokens.now)) (IsFaultOf text.now tokens.now) }
{
    reading();
    let mut rest = Tokens::new(text, tokens);
    let bounds = Bounds {
        turns: tokens.len() + 1,
        most: MOST,
    };
    match file(alloc, &mut rest, bounds, DEPTH) {
        Ok((found, _)) => Ok(found),
        Err(ParseError::Memory) => Err(SourceFault::NoMemory),
        Err(ParseError::Fault(fault)) => {
            let at = tokens.len() - rest.left();
            Err(fault_at(text, tokens, at, fault))
        }
    }
}

/// The fault at a token.
fn fault_at(text: &[u8], tokens: &[Token], at: usize, fault: Fault) -> SourceFault
    requires short { length text.now ≤ 2 ^ 31 }
    requires fault { (IsFaultAt source) 1000 1000 (words_of text.now tokens.now) at fault }
    ensures { IsFaultOf text.now tokens.now result }
{
    match fault {
        Fault::TooDeep => SourceFault::Limit(WhichSource::Depth),
        Fault::TooMany => SourceFault::Limit(WhichSource::SelectClauses),
        Fault::Unexpected => SourceFault::At {
            offset: offset_at(text, tokens, at),
            kind: SourceKind::Unexpected,
        },
        Fault::Exhausted => unreachable!(),
    }
}
