//! Cases that are equal, and a second `default`.
use crate::checking::{MAIN, Row, differing};
use go_ast::SourceKind::{DuplicateCase, DuplicateDefault, Undeclared};
use std::test::Fail;

const EQUAL: [Row; 18] = [
    ("switch n { case 1: case @1: }", Some(DuplicateCase)),
    ("switch n { case 1, @1: }", Some(DuplicateCase)),
    ("switch n { case 1, 2: case 3, @2: }", Some(DuplicateCase)),
    (
        "switch n { case 1: default: case @1: }",
        Some(DuplicateCase),
    ),
    ("switch s { case \"a\": case @\"a\": }", Some(DuplicateCase)),
    (
        "switch s { case \"word\": case @word: }",
        Some(DuplicateCase),
    ),
    (
        "switch s { case \"ab\": case @\"a\" + \"b\": }",
        Some(DuplicateCase),
    ),
    ("switch n { case five: case @5: }", Some(DuplicateCase)),
    ("switch n { case 'a': case @97: }", Some(DuplicateCase)),
    ("switch r { case 97: case @'a': }", Some(DuplicateCase)),
    ("switch i8 { case small: case @100: }", Some(DuplicateCase)),
    ("switch i8 { case int8(1): case @1: }", Some(DuplicateCase)),
    ("switch 2 { case 1: case @1: }", Some(DuplicateCase)),
    // One number in several spellings.
    ("switch n { case 0x_fF: case @255: }", Some(DuplicateCase)),
    ("switch n { case 0b101: case @5: }", Some(DuplicateCase)),
    (
        "switch n { case 0o17: case @017, 15: }",
        Some(DuplicateCase),
    ),
    ("switch n { case 1_000: case @1000: }", Some(DuplicateCase)),
    ("switch n { case 0: case @0x0: }", Some(DuplicateCase)),
];

const SECOND_DEFAULT: [Row; 6] = [
    ("@switch n { default: default: }", Some(DuplicateDefault)),
    (
        "@switch { default: case ok: default: }",
        Some(DuplicateDefault),
    ),
    ("@select { default: default: }", Some(DuplicateDefault)),
    (
        "@select { default: case <-c: default: }",
        Some(DuplicateDefault),
    ),
    (
        "@switch n { default: default: _ = y }",
        Some(DuplicateDefault),
    ),
    ("switch n { default: _ = @y; default: }", Some(Undeclared)),
];

const ACCEPTED: [Row; 9] = [
    ("switch {}", None),
    ("switch n { case 1: case 2: default: }", None),
    ("switch { case true: case true: }", None),
    ("switch ok { case true, true, false: }", None),
    ("switch n { case m: case m: }", None),
    ("switch n { case 1: switch m { case 1: } }", None),
    ("switch n { case 1: switch m { default: }; default: }", None),
    ("switch n { case one(): case one(): }", None),
    ("switch n { case len(s): case len(\"abc\"): case 4: }", None),
];

#[test]
fn equal_cases(rt: HostRuntime) -> Result<(), Fail> {
    let wrong = differing(rt.alloc(), MAIN, &EQUAL)?;
    assert_eq!(rt; wrong.as_str(), "");
    Ok(())
}

#[test]
fn two_defaults(rt: HostRuntime) -> Result<(), Fail> {
    let wrong = differing(rt.alloc(), MAIN, &SECOND_DEFAULT)?;
    assert_eq!(rt; wrong.as_str(), "");
    Ok(())
}

#[test]
fn different_cases(rt: HostRuntime) -> Result<(), Fail> {
    let wrong = differing(rt.alloc(), MAIN, &ACCEPTED)?;
    assert_eq!(rt; wrong.as_str(), "");
    Ok(())
}
