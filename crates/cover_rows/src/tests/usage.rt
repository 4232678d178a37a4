//! Faulty command lines.
use super::*;
use std::test::Fail;

#[test]
fn usage(rt: HostRuntime) -> Result<(), Fail> {
    let alloc = rt.alloc();
    // Words, and the line.
    for (words, line) in [
        // A word that is unknown, or one too many.
        ("cover -i=a", "gocov: usage: word 1\n"),
        ("cover -mode=set -o=b a.go c.go", "gocov: usage: word 4\n"),
        ("cover -mode=set -pkg=p -o=b a.go", "gocov: usage: word 2\n"),
        // A bad value.
        ("cover -mode=all -o=b a.go", "gocov: usage: word 1\n"),
        ("cover -mode=set -o= a.go", "gocov: usage: word 2\n"),
        ("cover -mode=set -var=_ -o=b a.go", "gocov: usage: word 2\n"),
        (
            "cover -mode=set -var func -o=b a.go",
            "gocov: usage: word 2\n",
        ),
        (
            "cover -mode=set -o=b -var=9a a.go",
            "gocov: usage: word 3\n",
        ),
        (
            "cover -mode=set -o=b -var=a.b a.go",
            "gocov: usage: word 3\n",
        ),
        ("cover -mode=set -o=b a\n.go", "gocov: usage: word 3\n"),
        ("cover -mode=set -o=b a\0.go", "gocov: usage: word 3\n"),
        (
            "cover -mode=set -o=b \u{feff}a.go",
            "gocov: usage: word 3\n",
        ),
        // A word that is missing.
        ("cover", "gocov: usage: word 1\n"),
        ("cover -mode", "gocov: usage: word 2\n"),
        ("cover -o=b a.go", "gocov: usage: word 3\n"),
        ("cover -mode=set a.go", "gocov: usage: word 3\n"),
        ("cover -mode=set -o=b", "gocov: usage: word 3\n"),
    ] {
        let mut files = files_of(alloc, ONE_FUNCTION.as_bytes(), &[])?;
        let outcome = call(&rt, alloc, words, &mut files, &[])?;
        assert_eq!(rt; outcome.code, 2, "{words}");
        assert!(rt; outcome.line.as_slice() == line.as_bytes(), "{words}");
        assert!(rt; files.get("b").is_none());
    }
    Ok(())
}
