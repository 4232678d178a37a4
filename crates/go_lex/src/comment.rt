//! Comments.
ghost use Rattle.std.specs.Prelude.{◌≡◌, ◌≤◌, length, take_while, not, IfSome};
ghost use Rattle.std.specs.List.{list_any};
ghost use Rattle.go_ast.specs.Places.{is_newline};
ghost use Rattle.go_lex.specs.Scan.{comment_close};

/// How many bytes stand before the next newline.
pub fn line_len(bytes: &[u8]) -> usize
    ensures value { result ≡ length (take_while (λ b. not (is_newline b)) bytes.now) }
    ensures within { result ≤ length bytes.now }
{
    bytes.iter().take_while(|b| **b != b'\n').count()
}

/// How many bytes there are up to the first `*/`, itself included.
#[tactic(auto, unfolding(crate::specs::Scan::comment_close))]
pub fn close_len(bytes: &[u8]) -> Option<usize>
    ensures value { result ≡ comment_close 0 bytes.now }
    ensures within { IfSome result (λ len. len ≤ length bytes.now) }
{
    let mut rest = bytes;
    let mut len = 0;
    while let [first, more @ ..] = rest {
        if *first == b'*' && more.starts_with(b"/") {
            return Some(len + 2);
        }
        rest = more;
        len += 1;
    }
    None
}

/// Whether a newline is among the bytes.
pub fn has_newline(bytes: &[u8]) -> bool
    ensures { result ≡ list_any is_newline bytes.now }
{
    bytes.iter().any(|b| *b == b'\n')
}
