//! Characters at the front of bytes.
ghost use Rattle.std.specs.Prelude.{◌≡◌, ◌≤◌, length, MatchOption};
ghost use Rattle.std.specs.Str.{StartsWithNoChar};
ghost use Rattle.go_ast.specs.Characters.{is_letter as letter, is_letter_or_digit as letter_or_digit, is_banned as banned, AreCharacters};
ghost use Rattle.go_lex.specs.Verdicts.{IsFirstBad};
ghost use Rattle.go_lex.specs.Fronts.{IsCharacterAt, IsValidFront};

use go_ast::LexKind;
use std::str;
use unicode::properties::GeneralCategory;

/// The character that the bytes begin with, and how many bytes it has.
pub fn char_at(bytes: &[u8]) -> Option<(char, usize)>
    ensures { MatchOption result (StartsWithNoChar bytes.now) (λ p. IsCharacterAt bytes.now p.0 p.1) }
{
    let [first, ..] = bytes else {
        return None;
    };
    if *first < 0x80 {
        return Some((*first as char, 1));
    }
    wide_char_at(bytes)
}

/// The same, whatever the first byte is.
fn wide_char_at(bytes: &[u8]) -> Option<(char, usize)>
    ensures { MatchOption result (StartsWithNoChar bytes.now) (λ p. IsCharacterAt bytes.now p.0 p.1) }
{
    let window = &bytes[..bytes.len().min(4)];
    let front = valid_front(window);
    match front.chars().next() {
        Some(c) => Some((c, c.len_utf8())),
        None => None,
    }
}

/// The longest front that is UTF-8.
fn valid_front(bytes: &[u8]) -> &str
    ensures { IsValidFront bytes.now result.now }
{
    match str::from_utf8(bytes) {
        Ok(whole) => whole,
        Err(e) => str::from_utf8(&bytes[..e.valid_up_to()]).unwrap(),
    }
}

/// Whether a character is a letter, as `_` is.
pub fn is_letter(c: char) -> bool
    ensures { result ≡ letter c }
{
    c == '_'
        || matches!(
            GeneralCategory::for_char(c),
            GeneralCategory::UppercaseLetter
                | GeneralCategory::LowercaseLetter
                | GeneralCategory::TitlecaseLetter
                | GeneralCategory::ModifierLetter
                | GeneralCategory::OtherLetter
        )
}

/// Whether a character is a letter or a digit.
pub fn is_letter_or_digit(c: char) -> bool
    ensures { result ≡ letter_or_digit c }
{
    is_letter(c) || matches!(GeneralCategory::for_char(c), GeneralCategory::DecimalNumber)
}

fn is_banned(c: char) -> bool
    ensures { result ≡ banned c }
{
    c == '\0' || c == '\u{feff}'
}

/// The first place where no character begins, or one that no source has.
pub fn bad_character(bytes: &[u8]) -> Option<(usize, LexKind)>
    ensures { MatchOption result (AreCharacters bytes.now) (λ p. IsFirstBad bytes.now p.0 p.1) }
{
    let mut rest = bytes;
    let mut at = 0;
    while !rest.is_empty() {
        let Some((c, len)) = char_at(rest) else {
            return Some((at, LexKind::BadUtf8));
        };
        if is_banned(c) {
            return Some((at, LexKind::BadCharacter));
        }
        let (_, more) = rest.split_at(len);
        rest = more;
        at += len;
    }
    None
}
