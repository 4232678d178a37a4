//! Places, texts and kinds by hand.
use crate::{LexKind, Lines, NoMemory, Place, SourceKind, Text, place_of};
use std::test::Fail;

#[test]
fn offsets_have_their_places(rt: HostRuntime) -> Result<(), Fail> {
    let text = b"a\n\n\xc3\xa4b\r\nc";
    let table = [
        (0, 1, 1),
        (1, 1, 2),
        (2, 2, 1),
        (3, 3, 1),
        (4, 3, 2),
        (5, 3, 3),
        (6, 3, 4),
        (7, 3, 5),
        (8, 4, 1),
        (9, 4, 2),
    ];
    let lines = Lines::new(rt.alloc(), text)?;
    for (offset, line, column) in table {
        assert!(rt; offset <= text.len());
        let want = Place { line, column };
        assert_eq!(rt; place_of(text, offset), want, "at {offset}");
        assert_eq!(rt; lines.place(offset), want, "at {offset}");
    }
    let empty = Lines::new(rt.alloc(), b"")?;
    assert_eq!(rt; empty.place(0), Place { line: 1, column: 1 });
    Ok(())
}

#[test]
fn texts_are_their_bytes(rt: HostRuntime) -> Result<(), NoMemory> {
    let text = Text::of(rt.alloc(), b"ab")?;
    let copy = text.clone()?;
    let other = Text::of(rt.alloc(), b"b")?;
    assert_eq!(rt; text.bytes(), b"ab".as_slice());
    assert!(rt; text == copy && text != other && text < other);
    assert_eq!(rt; SourceKind::from(LexKind::BadRune), SourceKind::BadRune);
    Ok(())
}

#[test]
fn texts_grow(rt: HostRuntime) -> Result<(), Fail> {
    let mut text = Text::new(rt.alloc());
    assert_eq!(rt; text.bytes(), b"".as_slice());
    text.append(b"ab")?;
    text.append(b"")?;
    text.append(b"c")?;
    assert_eq!(rt; text.bytes(), b"abc".as_slice());
    let mut bytes = Vec::new(rt.alloc());
    bytes.push(b'x')?;
    assert_eq!(rt; Text::from_vec(bytes).bytes(), b"x".as_slice());
    Ok(())
}
