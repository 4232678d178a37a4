//! Variables that are never read, and labels that are never named.
use crate::checking::{MAIN, Row, differing};
use go_ast::SourceKind::{UnusedLabel, UnusedVariable};
use std::test::Fail;

const VARIABLES: [Row; 21] = [
    ("@x := 1", Some(UnusedVariable)),
    ("var @x int", Some(UnusedVariable)),
    ("var ( x = n; @y = x )", Some(UnusedVariable)),
    ("x, @y := 1, 2; _ = x", Some(UnusedVariable)),
    ("@x := 1; x = 2", Some(UnusedVariable)),
    ("@x := 3; x, y := 4, 5; _ = y", Some(UnusedVariable)),
    ("x, @y := two(); _ = x", Some(UnusedVariable)),
    ("for @i := range s {}", Some(UnusedVariable)),
    ("for i, @r := range s { _ = i }", Some(UnusedVariable)),
    ("for @x := range c {}", Some(UnusedVariable)),
    ("for @x := 0; ok; { }", Some(UnusedVariable)),
    ("if @x := 1; ok {}", Some(UnusedVariable)),
    ("switch @x := n; {}", Some(UnusedVariable)),
    ("switch n { case 1: @x := 1 }", Some(UnusedVariable)),
    ("select { case @x := <-c: }", Some(UnusedVariable)),
    (
        "select { case x, @more := <-c: _ = x }",
        Some(UnusedVariable),
    ),
    ("@x := 1; { x := 2; _ = x }", Some(UnusedVariable)),
    ("x := 1; { @x := x }", Some(UnusedVariable)),
    ("{ @y := 1 }; x := 2", Some(UnusedVariable)),
    ("@x := 1; L: for ok {}", Some(UnusedVariable)),
    ("@x := n; { y := 1 }; x, z := 2, 3", Some(UnusedVariable)),
];

const LABELS: [Row; 7] = [
    ("@L: for ok {}", Some(UnusedLabel)),
    ("@L: for { break }", Some(UnusedLabel)),
    ("@L: switch n { case 1: }", Some(UnusedLabel)),
    ("@L: select { default: }", Some(UnusedLabel)),
    ("@_: for ok {}", Some(UnusedLabel)),
    ("@L: for { x := 1 }", Some(UnusedLabel)),
    ("A: for ok { @B: for ok { break A } }", Some(UnusedLabel)),
];

const ACCEPTED: [Row; 12] = [
    ("x := 1; _ = x", None),
    ("x := 1; x++", None),
    ("x := 1; x += 1", None),
    ("x := 1; { x := 2; _ = x }; _ = x", None),
    ("x := 1; { n = x }", None),
    ("x := c; x <- 1", None),
    ("x := c; <-x", None),
    ("const x = 1", None),
    ("const x = 1; y := x; _ = y", None),
    ("L: for ok { break L }", None),
    ("L: for ok { for ok { continue L } }", None),
    ("_: for ok { break _ }", None),
];

#[test]
fn unused_variables(rt: HostRuntime) -> Result<(), Fail> {
    let wrong = differing(rt.alloc(), MAIN, &VARIABLES)?;
    assert_eq!(rt; wrong.as_str(), "");
    Ok(())
}

#[test]
fn unused_labels(rt: HostRuntime) -> Result<(), Fail> {
    let wrong = differing(rt.alloc(), MAIN, &LABELS)?;
    assert_eq!(rt; wrong.as_str(), "");
    Ok(())
}

#[test]
fn used_names(rt: HostRuntime) -> Result<(), Fail> {
    let wrong = differing(rt.alloc(), MAIN, &ACCEPTED)?;
    assert_eq!(rt; wrong.as_str(), "");
    Ok(())
}
