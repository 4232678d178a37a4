//! Rewriting: from a source to its covered text.
ghost use Rattle.std.specs.Prelude.{◌≡◌, ◌≤◌, ◌^◌, List, ℕ, length, IfOk, IfErr};
ghost use Rattle.go_ast.specs.Tokens.{HasTokens};
ghost use Rattle.go_parse.specs.Answers.{IsWithin};
ghost use Rattle.cov_rewrite.specs.Coming.{ComesTo, Tells};
ghost use Rattle.cov_rewrite.specs.Rewriting.{IsRewriting, Refuses, lexical_fault};

use crate::covered::{Rewritten, counted_text};
use crate::laws::{a_tree_stands_in_its_text, one_text_or_fault};
use crate::reserved::reserved_name;
use cov_outside::Mode;
use go_ast::{SourceKind, Token};
use go_lex::{LexFault, lex};
use go_parse::{SourceFault, parse_tokens};
use go_spans::laws::{faults_stand_in_text, tokens_stand_in_text};
use std::alloc::Global;

/// The covered text of a source, by the file's name, the variable of the counters and the mode.
///
/// Else the first fault: that of lexing, `CoverName` at the first reserved identifier, or that of parsing.
pub fn rewrite(
    alloc: Global,
    text: &[u8],
    name: &[u8],
    var: &[u8],
    mode: Mode,
) -> Result<Vec<u8>, SourceFault>
    requires { length text.now ≤ 2 ^ 31 }
    ensures covered { IfOk result (λ covered. IsRewriting text.now name.now var.now mode covered.items) }
    ensures fault { IfErr result (Refuses text.now var.now) }
    ensures only { (all : List ℕ) → IsRewriting text.now name.now var.now mode all → IfErr result (λ e. e ≡ SourceFault.NoMemory) }
{
    one_text_or_fault();
    match rewrite_counted(alloc, text, name, var, mode) {
        Ok(all) => Ok(all.text.into_vec()),
        Err(fault) => Err(fault),
    }
}

/// The same, with the number of units that the covered text counts.
pub fn rewrite_counted(
    alloc: Global,
    text: &[u8],
    name: &[u8],
    var: &[u8],
    mode: Mode,
) -> Result<Rewritten, SourceFault>
    requires { length text.now ≤ 2 ^ 31 }
    ensures told { Tells result (ComesTo text.now name.now var.now mode) }
    ensures within { IfErr result (IsWithin (length text.now)) }
{
    faults_stand_in_text();
    match lex(alloc, text) {
        Ok(tokens) => rewrite_tokens(alloc, text, &tokens, name, var, mode),
        Err(fault) => Err(lexical(fault)),
    }
}

fn lexical(fault: LexFault) -> SourceFault
    ensures { result ≡ lexical_fault fault }
{
    match fault {
        LexFault::At { offset, kind } => SourceFault::At {
            offset,
            kind: SourceKind::from(kind),
        },
        LexFault::NoMemory => SourceFault::NoMemory,
    }
}

/// The same for a source with these tokens.
fn rewrite_tokens(
    alloc: Global,
    text: &[u8],
    tokens: &[Token],
    name: &[u8],
    var: &[u8],
    mode: Mode,
) -> Result<Rewritten, SourceFault>
    requires short { length text.now ≤ 2 ^ 31 }
    requires tokens { HasTokens text.now tokens.now }
    ensures told { Tells result (ComesTo text.now name.now var.now mode) }
    ensures within { IfErr result (IsWithin (length text.now)) }
{
    tokens_stand_in_text();
    if let Some(token) = reserved_name(text, tokens, var) {
        return Err(SourceFault::At {
            offset: token.span.start,
            kind: SourceKind::CoverName,
        });
    }
    let file = parse_tokens(alloc, text, tokens)?;
    a_tree_stands_in_its_text();
    match counted_text(alloc, text, &file, name, var, mode) {
        Ok(all) => Ok(all),
        Err(_) => Err(SourceFault::NoMemory),
    }
}
