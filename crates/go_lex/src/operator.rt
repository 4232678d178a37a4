//! Operators.
ghost use Rattle.std.specs.Prelude.{◌≡◌, ◌≤◌, length, map, IfSome};
ghost use Rattle.go_lex.specs.Operators.{by_front};
ghost use Rattle.go_lex.specs.Scan.{first_of};

/// Each operator with its place in the list of operators. None stands behind one that it begins with.
const OPERATORS: [(u8, &[u8]); 48] = [
    (37, b"..."),
    (46, b"."),
    (38, b"("),
    (39, b")"),
    (44, b","),
    (42, b"{"),
    (43, b"}"),
    (40, b"["),
    (41, b"]"),
    (45, b";"),
    (36, b":="),
    (47, b":"),
    (27, b"=="),
    (30, b"="),
    (25, b"++"),
    (11, b"+="),
    (0, b"+"),
    (26, b"--"),
    (12, b"-="),
    (1, b"-"),
    (13, b"*="),
    (2, b"*"),
    (24, b"<-"),
    (19, b"<<="),
    (8, b"<<"),
    (34, b"<="),
    (28, b"<"),
    (20, b">>="),
    (9, b">>"),
    (35, b">="),
    (29, b">"),
    (33, b"!="),
    (31, b"!"),
    (22, b"&&"),
    (21, b"&^="),
    (10, b"&^"),
    (16, b"&="),
    (5, b"&"),
    (23, b"||"),
    (17, b"|="),
    (6, b"|"),
    (14, b"/="),
    (3, b"/"),
    (15, b"%="),
    (4, b"%"),
    (18, b"^="),
    (7, b"^"),
    (32, b"~"),
];

/// The place of the longest operator at the front, and how many bytes it has.
pub fn operator_at(bytes: &[u8]) -> Option<(u8, usize)>
    ensures value { result ≡ first_of by_front bytes.now }
    ensures within { IfSome result (λ p. p.1 ≤ length bytes.now) }
{
    first_in(&OPERATORS, bytes)
}

/// The first entry of a table that the bytes begin with: its place, and its length.
#[tactic(auto, unfolding(crate::specs::Scan::first_of))]
fn first_in(table: &[(u8, &[u8])], bytes: &[u8]) -> Option<(u8, usize)>
    ensures value { result ≡ first_of (map (λ entry. (entry.0, entry.1.now)) table.now) bytes.now }
    ensures within { IfSome result (λ p. p.1 ≤ length bytes.now) }
{
    let mut left = table;
    while let [(place, operator), rest @ ..] = left {
        if bytes.starts_with(operator) {
            return Some((*place, operator.len()));
        }
        left = rest;
    }
    None
}
