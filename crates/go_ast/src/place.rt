//! Lines and columns.
ghost use Rattle.std.specs.Prelude.{◌≡◌, ◌≤◌, ◌^◌, length};
ghost use Rattle.go_ast.specs.Places.{place_at};

/// A line and a column, both from 1. A column counts bytes.
#[derive(Clone, Copy, Debug, PartialEq, Eq)]
pub struct Place {
    pub line: u32,
    pub column: u32,
}

/// The place of an offset in a text: 1 plus the newlines before it, and 1 plus the bytes since the last of them.
pub fn place_of(text: &[u8], offset: usize) -> Place
    requires short { length text.now ≤ 2 ^ 31 }
    requires within { offset ≤ length text.now }
    ensures { result ≡ place_at text.now offset }
{
    let mut place = Place { line: 1, column: 1 };
    let before = &text[..offset];
    for byte in before {
        if *byte == b'\n' {
            place.line += 1;
            place.column = 1;
        } else {
            place.column += 1;
        }
    }
    place
}
