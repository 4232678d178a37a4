//! Tokens of pieces, and the semicolons between them.
ghost use Rattle.std.specs.Prelude.{◌≡◌, ◌++◌, Some, None, OnOk, IfOk};
ghost use Rattle.go_ast.specs.Tokens.{kind_of as kind_by, ends_line as ends, inserted, token_of, tokens_by, needed_behind, needed_after};

use crate::word::word_kind;
use go_ast::{NoMemory, PieceForm, Span, Token, TokenKind};

/// The place of `;` among the operators.
const SEMICOLON: u8 = 45;

/// The kind of the token that a piece is, if it is one.
fn kind_of(form: PieceForm, piece: &[u8]) -> Option<TokenKind>
    ensures { result ≡ kind_by form piece.now }
{
    match form {
        PieceForm::Blank | PieceForm::Line | PieceForm::Opening => None,
        PieceForm::Word => Some(word_kind(piece)),
        PieceForm::Number => Some(TokenKind::Int),
        PieceForm::Rune => Some(TokenKind::Rune),
        PieceForm::Quoted | PieceForm::Raw => Some(TokenKind::Text),
        PieceForm::Operator(place) => Some(TokenKind::Operator(place)),
    }
}

/// Whether a line that ends behind a token ends with a semicolon.
fn ends_line(kind: TokenKind) -> bool
    ensures { result ≡ ends kind }
{
    match kind {
        // `break continue fallthrough return`
        TokenKind::Keyword(place) => matches!(place, 0 | 4 | 8 | 19),
        // `++ -- ) ] }`
        TokenKind::Operator(place) => matches!(place, 25 | 26 | 39 | 41 | 43),
        TokenKind::Name | TokenKind::Int | TokenKind::Rune | TokenKind::Text => true,
    }
}

/// Adds the semicolon that a line needs where it ends.
pub fn end_line(tokens: &mut Vec<Token>, needed: Option<u32>) -> Result<(), NoMemory>
    ensures { OnOk result (tokens.new.items ≡ tokens.old.items ++ inserted needed) }
{
    if let Some(at) = needed {
        tokens.push(Token {
            kind: TokenKind::Operator(SEMICOLON),
            span: Span { start: at, end: at },
        })?;
    }
    Ok(())
}

/// Adds the tokens of a piece, and answers where the line needs a semicolon if it ends behind it.
pub fn add_piece(
    tokens: &mut Vec<Token>,
    form: PieceForm,
    piece: &[u8],
    span: Span,
    needed: Option<u32>,
) -> Result<Option<u32>, NoMemory>
    ensures tokens { OnOk result (tokens.new.items ≡ tokens.old.items ++ tokens_by form piece.now span.start span.end needed) }
    ensures needed { IfOk result (λ after. after ≡ needed_after form piece.now span.end needed) }
{
    if let PieceForm::Line = form {
        end_line(tokens, needed)?;
        return Ok(None);
    }
    let Some(kind) = kind_of(form, piece) else {
        return Ok(needed);
    };
    add_token(tokens, kind, span)
}

/// Adds a token, and answers the same.
fn add_token(tokens: &mut Vec<Token>, kind: TokenKind, span: Span) -> Result<Option<u32>, NoMemory>
    ensures tokens { OnOk result (tokens.new.items ≡ tokens.old.items ++ token_of (Some kind) span.start span.end) }
    ensures needed { IfOk result (λ after. after ≡ needed_behind (Some kind) span.end None) }
{
    tokens.push(Token { kind, span })?;
    if ends_line(kind) {
        Ok(Some(span.end))
    } else {
        Ok(None)
    }
}
