//! Each call of the outside that fails in turn.
use super::*;
use std::test::Fail;

#[test]
fn files(rt: HostRuntime) -> Result<(), Fail> {
    let alloc = rt.alloc();
    // Two reads, of which the second finds the end, and one put.
    for (call_that_fails, code, line) in [
        (0, 4, "gocov: read fault\n"),
        (1, 4, "gocov: read fault\n"),
        (2, 4, "gocov: write fault\n"),
        (3, 0, ""),
    ] {
        let mut files = files_of(alloc, ONE_FUNCTION.as_bytes(), &[call_that_fails])?;
        let outcome = call(&rt, alloc, "cover -mode=set -o=b a.go", &mut files, &[])?;
        assert_eq!(rt; outcome.code, code);
        assert!(rt; outcome.line.as_slice() == line.as_bytes());
        assert_eq!(rt; files.get("b").is_some(), code == 0);
    }
    Ok(())
}

#[test]
fn a_line_that_is_not_written(rt: HostRuntime) -> Result<(), Fail> {
    let alloc = rt.alloc();
    let mut files = files_of(alloc, b"", &[])?;
    let outcome = call(&rt, alloc, "cover -mode=set -o=b a.go", &mut files, &[0])?;
    assert_eq!(rt; outcome.code, 4);
    assert!(rt; outcome.line.is_empty());
    assert!(rt; files.get("b").is_none());
    Ok(())
}
