//! The piece at the front of a text.
ghost use Rattle.std.specs.Prelude.{◌≡◌, ◌≤◌, ◌<◌, ◌+◌, ◌^◌, ◌∷◌, length, IfSome};
ghost use Rattle.go_lex.specs.Pieces.{quoted_by, operator_front, block_front, slash_front, other_front, IsPieceAt};

use crate::number::number_len;
use crate::operator::operator_at;
use crate::word::word_len;
use crate::{comment, quote};
use go_ast::PieceForm;

/// The form of the longest piece at the front, and how many bytes it has.
pub fn piece_at(text: &[u8]) -> Option<(PieceForm, usize)>
    ensures piece { IsPieceAt text.now result }
    ensures within { IfSome result (λ p. p.1 ≤ length text.now) }
{
    let word = word_len(text);
    if word > 0 {
        return Some((PieceForm::Word, word));
    }
    let number = number_len(text);
    if number > 0 {
        return Some((PieceForm::Number, number));
    }
    other_piece(text)
}

/// The same where neither a word nor a number begins.
#[tactic(auto, unfolding(crate::specs::Pieces::other_front))]
fn other_piece(text: &[u8]) -> Option<(PieceForm, usize)>
    ensures value { result ≡ other_front text.now }
    ensures within { IfSome result (λ p. p.1 ≤ length text.now) }
{
    let [first, rest @ ..] = text else {
        return None;
    };
    match *first {
        b' ' | b'\t' | b'\r' => Some((PieceForm::Blank, 1)),
        b'\n' => Some((PieceForm::Line, 1)),
        b'\'' => quoted(PieceForm::Rune, quote::close_len(b'\'', rest)),
        b'"' => quoted(PieceForm::Quoted, quote::close_len(b'"', rest)),
        b'`' => quoted(PieceForm::Raw, quote::raw_len(rest)),
        b'/' => slash_piece(text, rest),
        _ => operator_piece(text),
    }
}

/// A literal of a length, with the quote before it.
fn quoted(form: PieceForm, len: Option<usize>) -> Option<(PieceForm, usize)>
    requires { IfSome len (λ n. n < 2 ^ 63) }
    ensures { result ≡ quoted_by form len }
{
    Some((form, 1 + len?))
}

#[tactic(auto, unfolding(crate::specs::Pieces::operator_front))]
fn operator_piece(text: &[u8]) -> Option<(PieceForm, usize)>
    ensures value { result ≡ operator_front text.now }
    ensures within { IfSome result (λ p. p.1 ≤ length text.now) }
{
    let (place, len) = operator_at(text)?;
    Some((PieceForm::Operator(place), len))
}

/// What begins with a slash: a comment or an operator.
#[tactic(auto, unfolding(crate::specs::Pieces::slash_front))]
fn slash_piece(text: &[u8], rest: &[u8]) -> Option<(PieceForm, usize)>
    requires { text.now ≡ 47 ∷ rest.now }
    ensures value { result ≡ slash_front rest.now }
    ensures within { IfSome result (λ p. p.1 ≤ length text.now) }
{
    let [first, body @ ..] = rest else {
        return operator_piece(text);
    };
    match *first {
        b'/' => Some((PieceForm::Blank, 1 + comment::line_len(rest))),
        b'*' => Some(block_piece(body)),
        _ => operator_piece(text),
    }
}

/// What begins with `/*`, by what follows that: a comment, or nothing but those two bytes.
#[tactic(auto, unfolding(crate::specs::Pieces::block_front))]
fn block_piece(body: &[u8]) -> (PieceForm, usize)
    ensures value { result ≡ block_front body.now }
    ensures within { result.1 ≤ 2 + length body.now }
{
    let Some(len) = comment::close_len(body) else {
        return (PieceForm::Opening, 2);
    };
    if comment::has_newline(&body[..len]) {
        (PieceForm::Line, 2 + len)
    } else {
        (PieceForm::Blank, 2 + len)
    }
}
