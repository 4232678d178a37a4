//! What stands in quotes.
ghost use Rattle.std.specs.Prelude.{◌≡◌, ◌≤◌, length, false, IfSome};
ghost use Rattle.go_ast.specs.Literals.{inner as inside};
ghost use Rattle.go_lex.specs.Scan.{quote_close, raw_close};

/// How many bytes there are up to the quote that closes a literal, itself included, on one line.
#[tactic(auto, unfolding(crate::specs::Scan::quote_close))]
pub fn close_len(quote: u8, bytes: &[u8]) -> Option<usize>
    ensures value { result ≡ quote_close quote false 0 bytes.now }
    ensures within { IfSome result (λ len. len ≤ length bytes.now) }
{
    let mut rest = bytes;
    let mut escaped = false;
    let mut len = 0;
    while let [first, more @ ..] = rest {
        if *first == b'\n' {
            return None;
        }
        if escaped {
            escaped = false;
        } else if *first == quote {
            return Some(len + 1);
        } else {
            escaped = *first == b'\\';
        }
        len += 1;
        rest = more;
    }
    None
}

/// How many bytes there are up to the next backquote, itself included.
#[tactic(auto, unfolding(crate::specs::Scan::raw_close))]
pub fn raw_len(bytes: &[u8]) -> Option<usize>
    ensures value { result ≡ raw_close 0 bytes.now }
    ensures within { IfSome result (λ len. len ≤ length bytes.now) }
{
    let mut rest = bytes;
    let mut len = 0;
    while let [first, more @ ..] = rest {
        if *first == b'`' {
            return Some(len + 1);
        }
        len += 1;
        rest = more;
    }
    None
}

/// The bytes between the first and the last.
pub fn inner(bytes: &[u8]) -> &[u8]
    ensures { result.now ≡ inside bytes.now }
{
    if bytes.len() < 2 {
        return &[];
    }
    &bytes[1..bytes.len() - 1]
}
