//! Names of variables and files.
ghost use Rattle.std.specs.Prelude.{◌≡◌};
ghost use Rattle.std.specs.List.{list_any};
ghost use Rattle.std.specs.Str.{bytes_eq, chars};
ghost use Rattle.go_ast.specs.Characters.{is_letter as letter, is_letter_or_digit as letter_or_digit};
ghost use Rattle.gocov_words.specs.Values as values;

use unicode::properties::GeneralCategory;

/// Words that are no variable: the blank identifier, and the keywords.
const TAKEN: [&str; 26] = [
    "_",
    "break",
    "case",
    "chan",
    "const",
    "continue",
    "default",
    "defer",
    "else",
    "fallthrough",
    "for",
    "func",
    "go",
    "goto",
    "if",
    "import",
    "interface",
    "map",
    "package",
    "range",
    "return",
    "select",
    "struct",
    "switch",
    "type",
    "var",
];

/// Whether a character is a letter, as `_` is.
fn is_letter(c: char) -> bool
    ensures { result ≡ letter c }
{
    c == '_'
        || matches!(
            GeneralCategory::for_char(c),
            GeneralCategory::UppercaseLetter
                | GeneralCategory::LowercaseLetter
                | GeneralCategory::TitlecaseLetter
                | GeneralCategory::ModifierLetter
                | GeneralCategory::OtherLetter
        )
}

/// Whether a character is a letter or a decimal digit.
fn is_letter_or_digit(c: char) -> bool
    ensures { result ≡ letter_or_digit c }
{
    is_letter(c) || matches!(GeneralCategory::for_char(c), GeneralCategory::DecimalNumber)
}

fn begins_with_letter(word: &str) -> bool
    ensures { result ≡ values.begin_with_letter (chars word.now) }
{
    match word.chars().next() {
        None => false,
        Some(c) => is_letter(c),
    }
}

fn are_letters_and_digits(word: &str) -> bool
    ensures { result ≡ values.are_letters_and_digits (chars word.now) }
{
    word.chars().all(|c| is_letter_or_digit(c))
}

fn is_among(words: &[&str], word: &str) -> bool
    ensures { result ≡ list_any (λ w. bytes_eq word.now w.now) words.now }
{
    words.iter().any(|other| word == *other)
}

fn is_taken(word: &str) -> bool
    ensures { result ≡ values.is_taken word.now }
{
    is_among(&TAKEN, word)
}

/// Whether a word is an identifier, and neither a keyword nor the blank one.
pub fn is_variable(word: &str) -> bool
    ensures { result ≡ values.is_variable word.now }
{
    are_letters_and_digits(word) && begins_with_letter(word) && !is_taken(word)
}

fn is_left_out(c: char) -> bool
    ensures { result ≡ values.is_left_out c }
{
    c == '\n' || c == '\0' || c == '\u{feff}'
}

/// Whether a word holds no newline, NUL or byte order mark.
pub fn is_file_name(word: &str) -> bool
    ensures { result ≡ values.is_file_name word.now }
{
    !word.chars().any(|c| is_left_out(c))
}
