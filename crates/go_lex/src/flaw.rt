//! What is wrong at the front of a text.
ghost use Rattle.std.specs.Prelude.{◌≢◌, ◌<◌, length, slice_index, MatchOption};
ghost use Rattle.go_ast.specs.Characters.{AreCharacters};
ghost use Rattle.go_ast.specs.Pieces.{HasForm, IsMeant};
ghost use Rattle.go_ast.specs.Faults.{IsFlaw};
ghost use Rattle.go_lex.specs.Verdicts.{IsRuneFlaw, IsUnflawedRune, IsUnflawed, IsFaultIn, IsStopOrBad};

use crate::character::{bad_character, char_at};
use crate::escape::{bad_escape, escape_at};
use crate::number::is_int;
use crate::quote::inner;
use go_ast::{LexKind, PieceForm};

/// Why a piece isn't meant, and at which offset in it.
fn flaw(form: PieceForm, piece: &[u8]) -> Option<(usize, LexKind)>
    requires { HasForm form piece.now }
    ensures { MatchOption result (IsUnflawed form piece.now) (λ p. IsFlaw form piece.now p.0 p.1) }
{
    match form {
        PieceForm::Opening => Some((0, LexKind::BadComment)),
        PieceForm::Number => {
            if is_int(piece) {
                None
            } else {
                Some((0, LexKind::BadNumber))
            }
        }
        PieceForm::Rune => rune_flaw(inner(piece)),
        PieceForm::Quoted => match bad_escape(inner(piece)) {
            Some(at) => Some((at, LexKind::BadEscape)),
            None => None,
        },
        PieceForm::Blank
        | PieceForm::Line
        | PieceForm::Word
        | PieceForm::Raw
        | PieceForm::Operator(_) => None,
    }
}

/// The same of what stands between single quotes. A byte alone that begins no character is left to `bad_character`.
fn rune_flaw(body: &[u8]) -> Option<(usize, LexKind)>
    ensures { MatchOption result (IsUnflawedRune body.now) (λ p. IsRuneFlaw body.now p.0 p.1) }
{
    let [first, ..] = body else {
        return Some((0, LexKind::BadRune));
    };
    if *first != b'\\' {
        return character_flaw(body);
    }
    match escape_at(b'\'', body) {
        None => Some((1, LexKind::BadEscape)),
        Some(len) if len < body.len() => Some((0, LexKind::BadRune)),
        Some(_) => None,
    }
}

/// The same of what begins with no backslash.
fn character_flaw(body: &[u8]) -> Option<(usize, LexKind)>
    requires some { 0 < length body.now }
    requires first { slice_index body.now 0 ≢ 92 }
    ensures { MatchOption result (IsUnflawedRune body.now) (λ p. IsRuneFlaw body.now p.0 p.1) }
{
    match char_at(body) {
        Some((_, len)) if len == body.len() => None,
        Some(_) => Some((0, LexKind::BadRune)),
        None if body.len() == 1 => None,
        None => Some((0, LexKind::BadRune)),
    }
}

/// The first fault in a piece: of two at one offset the bad character.
pub fn fault_in(form: PieceForm, piece: &[u8]) -> Option<(usize, LexKind)>
    requires { HasForm form piece.now }
    ensures { MatchOption result (AreCharacters piece.now × IsMeant form piece.now) (λ p. IsFaultIn form piece.now p.0 p.1) }
{
    let Some(bad) = bad_character(piece) else {
        return flaw(form, piece);
    };
    match flaw(form, piece) {
        Some(flaw) if flaw.0 < bad.0 => Some(flaw),
        _ => Some(bad),
    }
}

/// Why nothing begins at the front of a text.
pub fn stop_at(text: &[u8]) -> LexKind
    ensures { IsStopOrBad text.now result }
{
    match text {
        [b'\'', ..] => LexKind::BadRune,
        [b'"' | b'`', ..] => LexKind::BadText,
        _ => match char_at(text) {
            Some(_) => LexKind::BadCharacter,
            None => LexKind::BadUtf8,
        },
    }
}
