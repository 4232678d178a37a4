//! The first refusal of a source.
use super::*;
use std::test::Fail;

#[test]
fn refusals(rt: HostRuntime) -> Result<(), Fail> {
    let alloc = rt.alloc();
    // The source, and the line.
    for (source, line) in [
        ("", "gocov: a.go:1:1: Unexpected\n"),
        ("package", "gocov: a.go:1:8: Unexpected\n"),
        ("package p\nvar var W", "gocov: a.go:2:5: Unexpected\n"),
        ("package p\n\nfunc f() {\n", "gocov: a.go:4:1: Unexpected\n"),
        ("package p\nvar V int", "gocov: a.go:2:5: CoverName\n"),
        ("package V", "gocov: a.go:1:9: CoverName\n"),
        (
            "package p\nvar _cover_atomic_x int",
            "gocov: a.go:2:5: CoverName\n",
        ),
        // A reserved name comes before the grammar, and lexing before both.
        ("package p\nvar var V", "gocov: a.go:2:9: CoverName\n"),
        ("package p\nvar V $", "gocov: a.go:2:7: BadCharacter\n"),
        ("package p\nvar W = 08", "gocov: a.go:2:9: BadNumber\n"),
        ("package p\nvar W = ''", "gocov: a.go:2:9: BadRune\n"),
        ("package p\nvar W = \"", "gocov: a.go:2:9: BadText\n"),
        (
            "package p\nvar W = \"\\y\"",
            "gocov: a.go:2:10: BadEscape\n",
        ),
        ("package p /*", "gocov: a.go:1:11: BadComment\n"),
        // Columns count bytes.
        (
            "package p\nvar größe, V int",
            "gocov: a.go:2:14: CoverName\n",
        ),
    ] {
        let mut files = files_of(alloc, source.as_bytes(), &[])?;
        let outcome = call(
            &rt,
            alloc,
            "cover -mode=set -var=V -o=b a.go",
            &mut files,
            &[],
        )?;
        assert_eq!(rt; outcome.code, 1, "{source}");
        assert!(rt; outcome.line.as_slice() == line.as_bytes(), "{source}");
        assert!(rt; files.get("b").is_none());
    }
    Ok(())
}

#[test]
fn bytes_that_are_no_text(rt: HostRuntime) -> Result<(), Fail> {
    let alloc = rt.alloc();
    let mut files = files_of(alloc, b"package p\n\xff", &[])?;
    let outcome = call(&rt, alloc, "cover -mode=set -o=b a.go", &mut files, &[])?;
    assert_eq!(rt; outcome.code, 1);
    assert!(rt; outcome.line.as_slice() == b"gocov: a.go:2:1: BadUtf8\n".as_slice());
    assert!(rt; files.get("b").is_none());
    Ok(())
}

#[test]
fn missing(rt: HostRuntime) -> Result<(), Fail> {
    let alloc = rt.alloc();
    let mut files = files_of(alloc, ONE_FUNCTION.as_bytes(), &[])?;
    let outcome = call(&rt, alloc, "cover -mode=set -o=b c.go", &mut files, &[])?;
    assert_eq!(rt; outcome.code, 1);
    assert!(rt; outcome.line.as_slice() == b"gocov: c.go: Missing\n".as_slice());
    assert!(rt; files.get("b").is_none());
    Ok(())
}
