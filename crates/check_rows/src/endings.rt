//! Bodies of functions with a result: which statements terminate them.
use crate::checking::{Frame, HEAD, PACKAGE, Row, differing};
use go_ast::SourceKind::{MissingReturn, UnusedLabel};
use std::test::Fail;

/// Rows are bodies. What is missing is missing at their closing brace.
const BODY: Frame = Frame {
    head: HEAD,
    open: "func main() {}\n\nfunc ends() int {\n\t",
    close: "\n@}\n",
};

const TERMINATING: [Row; 36] = [
    ("return 1", None),
    ("n = 1; return n", None),
    ("panic(\"x\")", None),
    ("{ return 1 }", None),
    ("{ n = 1; { panic(1) } }", None),
    ("if ok { return 1 } else { return 2 }", None),
    (
        "if ok { return 1 } else if ok { return 2 } else { panic(3) }",
        None,
    ),
    ("if x := n; x > m { return x } else { return m }", None),
    ("for {}", None),
    ("for ;; {}", None),
    ("for i := 0; ; i++ {}", None),
    ("for { if ok { return 1 } }", None),
    ("for { continue }", None),
    ("for { for ok { break } }", None),
    ("for { for range s { break } }", None),
    ("for { switch { case ok: break } }", None),
    ("for { select { default: break } }", None),
    ("for { L: for ok { break L } }", None),
    ("L: for { continue L }", None),
    ("L: for { for ok { continue L } }", None),
    ("switch { default: return 1 }", None),
    ("switch n { case 1: return 1; default: panic(\"a\") }", None),
    ("switch n { default: panic(\"a\"); case 1: return 1 }", None),
    ("switch n { case 1: fallthrough; default: return 1 }", None),
    ("switch n { default: fallthrough; case 1: return 1 }", None),
    (
        "switch n { case 1: for ok { break }; return 1; default: return 2 }",
        None,
    ),
    (
        "switch n { default: for { switch { default: break } } }",
        None,
    ),
    ("select {}", None),
    ("select { case <-c: return 1 }", None),
    ("select { case <-c: return 1; default: panic(1) }", None),
    ("select { case c <- 1: for {} }", None),
    ("select { case x := <-c: return x }", None),
    ("select { default: for ok { break }; return 1 }", None),
    // Their labels are used by nothing, since a `break` would let them end.
    ("@L: switch { default: return 1 }", Some(UnusedLabel)),
    ("@L: select { case <-c: return 1 }", Some(UnusedLabel)),
    ("@L: for {}", Some(UnusedLabel)),
];

const NOT_TERMINATING: [Row; 46] = [
    ("", Some(MissingReturn)),
    ("n = 1", Some(MissingReturn)),
    ("return 1; n = 2", Some(MissingReturn)),
    ("panic(1); none()", Some(MissingReturn)),
    ("one()", Some(MissingReturn)),
    ("<-c", Some(MissingReturn)),
    ("os.Exit(1)", Some(MissingReturn)),
    ("go one()", Some(MissingReturn)),
    ("defer one()", Some(MissingReturn)),
    ("const x = 1", Some(MissingReturn)),
    ("var x = 1", Some(MissingReturn)),
    ("{ }", Some(MissingReturn)),
    ("{ return 1; n = 1 }", Some(MissingReturn)),
    ("if ok { return 1 }", Some(MissingReturn)),
    ("if ok { return 1 } else { }", Some(MissingReturn)),
    ("if ok { } else { return 1 }", Some(MissingReturn)),
    (
        "if ok { return 1 } else if ok { return 2 }",
        Some(MissingReturn),
    ),
    ("for ok { return 1 }", Some(MissingReturn)),
    ("for true {}", Some(MissingReturn)),
    ("for ; true; { return 1 }", Some(MissingReturn)),
    ("for i := range s { return i }", Some(MissingReturn)),
    ("for range c { return 1 }", Some(MissingReturn)),
    ("for { break }", Some(MissingReturn)),
    ("for { if ok { break }; return 1 }", Some(MissingReturn)),
    ("for { { break } }", Some(MissingReturn)),
    ("L: for { break L }", Some(MissingReturn)),
    ("L: for { for { break L } }", Some(MissingReturn)),
    ("L: for { for range s { break L } }", Some(MissingReturn)),
    (
        "L: for { switch { default: break L } }",
        Some(MissingReturn),
    ),
    (
        "L: for { select { case <-c: break L } }",
        Some(MissingReturn),
    ),
    ("L: for ok { continue L }", Some(MissingReturn)),
    ("switch {}", Some(MissingReturn)),
    ("switch n { case 1: return 1 }", Some(MissingReturn)),
    (
        "switch n { case 1: default: return 1 }",
        Some(MissingReturn),
    ),
    (
        "switch n { case 1: return 1; default: }",
        Some(MissingReturn),
    ),
    (
        "switch n { case 1: return 1; default: break }",
        Some(MissingReturn),
    ),
    (
        "switch n { case 1: break; default: return 1 }",
        Some(MissingReturn),
    ),
    (
        "switch n { case 1: if ok { break }; return 1; default: return 2 }",
        Some(MissingReturn),
    ),
    (
        "L: switch n { case 1: for { break L }; default: return 1 }",
        Some(MissingReturn),
    ),
    ("select { case <-c: }", Some(MissingReturn)),
    ("select { default: }", Some(MissingReturn)),
    (
        "select { case <-c: n = 1; default: return 1 }",
        Some(MissingReturn),
    ),
    (
        "select { case <-c: return 1; default: break }",
        Some(MissingReturn),
    ),
    (
        "L: select { case <-c: for { break L } }",
        Some(MissingReturn),
    ),
    // It comes before what a body doesn't use.
    ("x := 1", Some(MissingReturn)),
    ("L: for ok {}", Some(MissingReturn)),
];

/// A function that is named `panic` is one like any other.
const OWN_PANIC: [Row; 4] = [
    (
        "func panic(a int) {}\nfunc f() int { panic(1) @}",
        Some(MissingReturn),
    ),
    (
        "func f() int { for { panic() }; panic() @}\nfunc panic() int { return 1 }",
        Some(MissingReturn),
    ),
    ("func panic(a, b int) {}\nfunc f() { panic(1, 2) }", None),
    (
        "func panic() int { return 1 }\nfunc f() int { return panic() }",
        None,
    ),
];

#[test]
fn bodies_that_terminate(rt: HostRuntime) -> Result<(), Fail> {
    let wrong = differing(rt.alloc(), BODY, &TERMINATING)?;
    assert_eq!(rt; wrong.as_str(), "");
    Ok(())
}

#[test]
fn bodies_that_end(rt: HostRuntime) -> Result<(), Fail> {
    let wrong = differing(rt.alloc(), BODY, &NOT_TERMINATING)?;
    assert_eq!(rt; wrong.as_str(), "");
    Ok(())
}

#[test]
fn calls_of_an_own_panic(rt: HostRuntime) -> Result<(), Fail> {
    let wrong = differing(rt.alloc(), PACKAGE, &OWN_PANIC)?;
    assert_eq!(rt; wrong.as_str(), "");
    Ok(())
}
