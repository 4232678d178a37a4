//! Covered texts.
use super::*;
use std::test::Fail;

/// The source in examples/cover, and its covered text.
const BRANCH: &str =
    "package main\n\nfunc main() {\n\tx := 2\n\tif x == 1 {\n\t\tx = 10\n\t} else if x == 2 {\n\t\tx = 20\n\t} else {\n\t\tx = 30\n\t}\n}\n";

const COVERED_BRANCH: &str =
    "//line a.go:1:1\npackage main\n\nfunc main() {GoCover.Count[0] = 1;\n\tx := 2\n\tif x == 1 {GoCover.Count[1] = 1;\n\t\tx = 10\n\t} else{ GoCover.Count[2] = 1; if x == 2 {GoCover.Count[3] = 1;\n\t\tx = 20\n\t} else {GoCover.Count[4] = 1;\n\t\tx = 30\n\t}}\n}\n\nvar GoCover = struct {\n\tCount [5]uint32\n\tPos [3 * 5]uint32\n\tNumStmt [5]uint16\n}{\n\tPos: [3 * 5]uint32{\n\t\t3, 5, 0xc000d, // [0]\n\t\t5, 7, 0x3000c, // [1]\n\t\t7, 7, 0x130008, // [2]\n\t\t7, 9, 0x30013, // [3]\n\t\t9, 11, 0x30008, // [4]\n\t},\n\tNumStmt: [5]uint16{\n\t\t2, // 0\n\t\t1, // 1\n\t\t1, // 2\n\t\t1, // 3\n\t\t1, // 4\n\t},\n}\n";

const SET: &str =
    "//line a.go:1:1\npackage p\n\nfunc f() {GoCover.Count[0] = 1;}\n\nvar GoCover = struct {\n\tCount [1]uint32\n\tPos [3 * 1]uint32\n\tNumStmt [1]uint16\n}{\n\tPos: [3 * 1]uint32{\n\t\t3, 3, 0xc000b, // [0]\n\t},\n\tNumStmt: [1]uint16{\n\t\t0, // 0\n\t},\n}\n";

const COUNT: &str =
    "//line a.go:1:1\npackage p\n\nfunc f() {größe.Count[0]++;}\n\nvar größe = struct {\n\tCount [1]uint32\n\tPos [3 * 1]uint32\n\tNumStmt [1]uint16\n}{\n\tPos: [3 * 1]uint32{\n\t\t3, 3, 0xc000b, // [0]\n\t},\n\tNumStmt: [1]uint16{\n\t\t0, // 0\n\t},\n}\n";

const ATOMIC: &str =
    "//line a.go:1:1\npackage p; import _cover_atomic_ \"sync/atomic\"\n\nfunc f() {_cover_atomic_.AddUint32(&V.Count[0], 1);}\n\nvar V = struct {\n\tCount [1]uint32\n\tPos [3 * 1]uint32\n\tNumStmt [1]uint16\n}{\n\tPos: [3 * 1]uint32{\n\t\t3, 3, 0xc000b, // [0]\n\t},\n\tNumStmt: [1]uint16{\n\t\t0, // 0\n\t},\n}\nvar _ = _cover_atomic_.LoadUint32\n";

#[test]
fn covered_texts(rt: HostRuntime) -> Result<(), Fail> {
    let alloc = rt.alloc();
    // Words, the source, where its covered text is put, and that text.
    for (words, source, path, covered) in [
        ("cover -mode=set -o=b.go a.go", ONE_FUNCTION, "b.go", SET),
        (
            "cover -mode count --o b -var=größe a.go",
            ONE_FUNCTION,
            "b",
            COUNT,
        ),
        (
            "cover -o=b -var W --var V -mode=set -mode=atomic -- a.go",
            ONE_FUNCTION,
            "b",
            ATOMIC,
        ),
        // The source itself may be replaced.
        ("cover -mode=set -o=a.go a.go", ONE_FUNCTION, "a.go", SET),
        (
            "cover -mode=set -o=b.go a.go",
            BRANCH,
            "b.go",
            COVERED_BRANCH,
        ),
    ] {
        let mut files = files_of(alloc, source.as_bytes(), &[])?;
        let outcome = call(&rt, alloc, words, &mut files, &[])?;
        assert_eq!(rt; outcome.code, 0, "{words}");
        assert!(rt; outcome.line.is_empty());
        let put = files.get(path).expect(&rt, "a covered text");
        assert!(rt; put == covered.as_bytes());
        let other = files.get("other").expect(&rt, "the other file");
        assert!(rt; other == b"as it is".as_slice());
    }
    Ok(())
}

#[test]
fn the_source_stays(rt: HostRuntime) -> Result<(), Fail> {
    let alloc = rt.alloc();
    let mut files = files_of(alloc, ONE_FUNCTION.as_bytes(), &[])?;
    let outcome = call(&rt, alloc, "cover -mode=set -o=b a.go", &mut files, &[])?;
    assert_eq!(rt; outcome.code, 0);
    let source = files.get("a.go").expect(&rt, "the source");
    assert!(rt; source == ONE_FUNCTION.as_bytes());
    Ok(())
}
