//! Names and keywords.
ghost use Rattle.std.specs.Prelude.{◌≡◌, ◌<◌, length, map};
ghost use Rattle.go_ast.specs.Words.{keywords, place_from, place_in};
ghost use Rattle.go_ast.specs.Tokens.{word_kind as kind_at};
ghost use Rattle.go_lex.specs.Fronts.{IsRunLen, IsWordLen};

use crate::character::{char_at, is_letter, is_letter_or_digit};
use go_ast::TokenKind;

const KEYWORDS: [&[u8]; 25] = [
    b"break",
    b"case",
    b"chan",
    b"const",
    b"continue",
    b"default",
    b"defer",
    b"else",
    b"fallthrough",
    b"for",
    b"func",
    b"go",
    b"goto",
    b"if",
    b"import",
    b"interface",
    b"map",
    b"package",
    b"range",
    b"return",
    b"select",
    b"struct",
    b"switch",
    b"type",
    b"var",
];

/// How many bytes of letters and digits stand at the front.
fn run_len(bytes: &[u8]) -> usize
    ensures { IsRunLen bytes.now result }
{
    let mut rest = bytes;
    let mut len = 0;
    while let Some((c, width)) = char_at(rest) {
        if !is_letter_or_digit(c) {
            return len;
        }
        let (_, more) = rest.split_at(width);
        rest = more;
        len += width;
    }
    len
}

/// How many bytes the word at the front has, or 0 where none begins there.
pub fn word_len(bytes: &[u8]) -> usize
    ensures { IsWordLen bytes.now result }
{
    let Some((c, width)) = char_at(bytes) else {
        return 0;
    };
    if !is_letter(c) {
        return 0;
    }
    let (_, more) = bytes.split_at(width);
    width + run_len(more)
}

/// Whether a word is a keyword, and which, or a name.
pub fn word_kind(word: &[u8]) -> TokenKind
    ensures { result ≡ kind_at (place_in keywords word.now) }
{
    match place_of(&KEYWORDS, word) {
        Some(place) => TokenKind::Keyword(place),
        None => TokenKind::Name,
    }
}

/// The place of a word among others, from 0.
fn place_of(words: &[&[u8]], word: &[u8]) -> Option<u8>
    requires { length words.now < 256 }
    ensures { result ≡ place_from 0 (map (λ w. w.now) words.now) word.now }
{
    let mut left = words;
    let mut place = 0;
    while let [first, rest @ ..] = left {
        if *first == word {
            return Some(place);
        }
        left = rest;
        place += 1;
    }
    None
}
