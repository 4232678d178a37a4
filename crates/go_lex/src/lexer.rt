//! Lexing.
ghost use Rattle.std.specs.Prelude.{◌≡◌, ◌≢◌, ◌≤◌, ◌<◌, ◌+◌, ◌^◌, ℕ, List, [], length, IfOk, IfErr, MatchResult};
ghost use Rattle.go_ast.specs.Tokens.{HasTokens};
ghost use Rattle.go_ast.specs.declared.token.Token.{Token as TokenValue};
ghost use Rattle.go_lex.specs.Verdicts.{IsGoodPiece, IsFirstBreak, Fails};

use crate::fault::LexFault;
use crate::flaw::{fault_in, stop_at};
use crate::piece::piece_at;
use crate::tokens::{add_piece, end_line};
use go_ast::{LexKind, PieceForm, Span, Token};
use std::alloc::Global;

/// The tokens of a text, with the semicolons that are inserted where lines end.
///
/// A text without tokens has one fault: that with the least offset, and of two at one offset the earlier of `LexKind`.
pub fn lex(alloc: Global, text: &[u8]) -> Result<Vec<Token>, LexFault>
    requires { length text.now ≤ 2 ^ 31 }
    ensures tokens { IfOk result (λ tokens. HasTokens text.now tokens.items) }
    ensures fault { IfErr result (Fails text.now) }
    ensures only { (tokens : List TokenValue) → HasTokens text.now tokens → IfErr result (λ e. e ≡ LexFault.NoMemory) }
{
    let mut tokens = Vec::new(alloc);
    let mut needed = None;
    let mut rest = text;
    let mut start = 0;
    while !rest.is_empty() {
        let (form, len) = match next_piece(rest) {
            Ok(piece) => piece,
            Err((near, kind)) => return Err(fault_at(start + near, kind)),
        };
        let (piece, more) = rest.split_at(len);
        let end = start + len;
        needed = add_piece(&mut tokens, form, piece, span(start, end), needed)?;
        start = end;
        rest = more;
    }
    end_line(&mut tokens, needed)?;
    Ok(tokens)
}

/// The piece at the front of a text, and its length; or why the text doesn't go on there, and at which offset from there.
fn next_piece(text: &[u8]) -> Result<(PieceForm, usize), (usize, LexKind)>
    requires { text.now ≢ [] }
    ensures { MatchResult result (λ p. IsGoodPiece text.now p.0 p.1) (λ e. IsFirstBreak text.now e.0 e.1) }
{
    let Some((form, len)) = piece_at(text) else {
        return Err((0, stop_at(text)));
    };
    match fault_in(form, &text[..len]) {
        Some(fault) => Err(fault),
        None => Ok((form, len)),
    }
}

fn fault_at(offset: usize, kind: LexKind) -> LexFault
    requires { offset < 2 ^ 32 }
    ensures { result ≡ LexFault.At offset kind }
{
    LexFault::At {
        offset: offset as u32,
        kind,
    }
}

fn span(start: usize, end: usize) -> Span
    requires start { start < 2 ^ 32 }
    requires end { end < 2 ^ 32 }
    ensures { result ≡ record { start = start; end = end } }
{
    Span {
        start: start as u32,
        end: end as u32,
    }
}
