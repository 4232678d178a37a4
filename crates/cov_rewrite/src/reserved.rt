//! Names that a source may not have.
ghost use Rattle.std.specs.Prelude.{◌≡◌, ◌≤◌, All, length};
ghost use Rattle.go_ast.specs.Tokens.{HasTokens};
ghost use Rattle.cov_rewrite.specs.Reserved as spec;

use go_ast::{Token, TokenKind};
use go_spans::laws::tokens_stand_in_text;

/// What the name of the atomic import begins with.
const ATOMIC: &[u8] = b"_cover_atomic_";

/// The first identifier among the tokens of a text that is the variable of the counters or begins as the atomic import's
/// name does.
pub fn reserved_name(text: &[u8], tokens: &[Token], var: &[u8]) -> Option<Token>
    requires { HasTokens text.now tokens.now }
    ensures { result ≡ spec.first_reserved var.now text.now tokens.now }
{
    tokens_stand_in_text();
    for token in tokens {
        if is_reserved_token(text, token, var) {
            return Some(*token);
        }
    }
    None
}

fn is_reserved_token(text: &[u8], token: &Token, var: &[u8]) -> bool
    requires order { token.now.span.start ≤ token.now.span.end }
    requires within { token.now.span.end ≤ length text.now }
    ensures { result ≡ spec.is_reserved_token var.now text.now token.now }
{
    token.kind == TokenKind::Name
        && is_reserved(
            &text[token.span.start as usize..token.span.end as usize],
            var,
        )
}

fn is_reserved(name: &[u8], var: &[u8]) -> bool
    ensures { result ≡ spec.is_reserved var.now name.now }
{
    name == var || name.starts_with(ATOMIC)
}
