//! Names that a source of a covered module may not have.
ghost use Rattle.std.specs.Prelude.{◌≡◌, ◌≤◌, IfSome, length};
ghost use Rattle.std.specs.List.{list_all};
ghost use Rattle.go_ast.specs.Numbers as numbers;
ghost use Rattle.go_ast.specs.Tokens.{HasTokens};
ghost use Rattle.go_load.specs.CoverNames as spec;

use go_ast::{Token, TokenKind};
use go_spans::laws::tokens_stand_in_text;

/// What the name of the atomic import begins with.
const ATOMIC: &[u8] = b"_cover_atomic_";

/// What the name of a file's counters begins with; the file's number follows.
const COUNTERS: &[u8] = b"GoCover_";

/// The first identifier among the tokens of a text that a covered module gives a meaning.
pub fn first_cover_name(text: &[u8], tokens: &[Token]) -> Option<Token>
    requires { HasTokens text.now tokens.now }
    ensures found { result ≡ spec.first_cover_name text.now tokens.now }
    ensures within { IfSome result (λ token. token.span.start ≤ length text.now) }
{
    tokens_stand_in_text();
    for token in tokens {
        if is_cover_token(text, token) {
            return Some(*token);
        }
    }
    None
}

fn is_cover_token(text: &[u8], token: &Token) -> bool
    requires order { token.now.span.start ≤ token.now.span.end }
    requires within { token.now.span.end ≤ length text.now }
    ensures { result ≡ spec.is_cover_token text.now token.now }
{
    token.kind == TokenKind::Name
        && is_cover_name(&text[token.span.start as usize..token.span.end as usize])
}

/// Whether a name is that of some file's counters, or begins as that of the atomic import does.
pub fn is_cover_name(name: &[u8]) -> bool
    ensures { result ≡ spec.is_cover_name name.now }
{
    name.starts_with(ATOMIC) || (name.starts_with(COUNTERS) && is_number(&name[COUNTERS.len()..]))
}

fn is_number(digits: &[u8]) -> bool
    ensures { result ≡ spec.is_number digits.now }
{
    match digits {
        [] => false,
        [b'0', rest @ ..] => rest.is_empty(),
        [_, ..] => are_digits(digits),
    }
}

fn are_digits(bytes: &[u8]) -> bool
    ensures { result ≡ list_all numbers.is_decimal bytes.now }
{
    bytes.iter().all(|byte| is_digit(*byte))
}

fn is_digit(byte: u8) -> bool
    ensures { result ≡ numbers.is_decimal byte }
{
    byte.is_ascii_digit()
}
