//! Targets of `break`, `continue` and `fallthrough`, and labels that are declared twice.
use crate::checking::{MAIN, Row, differing};
use go_ast::SourceKind::BadLabel;
use std::test::Fail;

const WITHOUT_TARGET: [Row; 23] = [
    ("@break", Some(BadLabel)),
    ("@continue", Some(BadLabel)),
    ("@fallthrough", Some(BadLabel)),
    ("break @L", Some(BadLabel)),
    ("continue @L", Some(BadLabel)),
    ("if ok { @break }", Some(BadLabel)),
    ("{ @continue }", Some(BadLabel)),
    ("for ok { break @L }", Some(BadLabel)),
    ("for ok { continue @_ }", Some(BadLabel)),
    ("L: for ok { break L }; for ok { break @L }", Some(BadLabel)),
    (
        "for ok { L: for ok { break L }; continue @L }",
        Some(BadLabel),
    ),
    ("switch { case ok: @continue }", Some(BadLabel)),
    ("select { default: @continue }", Some(BadLabel)),
    ("L: switch { case ok: continue @L }", Some(BadLabel)),
    ("L: select { default: continue @L }", Some(BadLabel)),
    (
        "for ok { L: switch { case ok: continue @L } }",
        Some(BadLabel),
    ),
    ("switch { case ok: @fallthrough }", Some(BadLabel)),
    (
        "switch { case ok: @fallthrough; n = 1; case !ok: }",
        Some(BadLabel),
    ),
    (
        "switch { case ok: { @fallthrough }; case !ok: }",
        Some(BadLabel),
    ),
    (
        "switch { case ok: if ok { @fallthrough }; case !ok: }",
        Some(BadLabel),
    ),
    (
        "select { case <-c: @fallthrough; default: }",
        Some(BadLabel),
    ),
    ("for ok { @fallthrough }", Some(BadLabel)),
    (
        "switch { case ok: for { @fallthrough }; case !ok: }",
        Some(BadLabel),
    ),
];

const TWICE: [Row; 3] = [
    (
        "L: for ok { break L }; @L: for ok { break L }",
        Some(BadLabel),
    ),
    ("L: for ok { @L: for ok { break L } }", Some(BadLabel)),
    (
        "_: for ok { break _ }; @_: for ok { break _ }",
        Some(BadLabel),
    ),
];

const ACCEPTED: [Row; 13] = [
    ("for ok { break }", None),
    ("for ok { continue }", None),
    ("for range s { if ok { continue }; break }", None),
    ("for ok { switch { case ok: continue } }", None),
    ("for ok { select { default: continue } }", None),
    ("switch { case ok: break }", None),
    ("select { default: break }", None),
    ("L: switch { case ok: break L }", None),
    ("L: select { case <-c: for { break L } }", None),
    ("switch { case ok: fallthrough; case !ok: }", None),
    ("switch { case ok: fallthrough; default: }", None),
    ("switch { default: fallthrough; case ok: }", None),
    ("L: for ok { L := 1; _ = L; break L }", None),
];

#[test]
fn jumps_without_target(rt: HostRuntime) -> Result<(), Fail> {
    let wrong = differing(rt.alloc(), MAIN, &WITHOUT_TARGET)?;
    assert_eq!(rt; wrong.as_str(), "");
    Ok(())
}

#[test]
fn labels_declared_twice(rt: HostRuntime) -> Result<(), Fail> {
    let wrong = differing(rt.alloc(), MAIN, &TWICE)?;
    assert_eq!(rt; wrong.as_str(), "");
    Ok(())
}

#[test]
fn jumps_with_target(rt: HostRuntime) -> Result<(), Fail> {
    let wrong = differing(rt.alloc(), MAIN, &ACCEPTED)?;
    assert_eq!(rt; wrong.as_str(), "");
    Ok(())
}
