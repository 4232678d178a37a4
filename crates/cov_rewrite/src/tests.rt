//! Rewritings by hand.
use crate::rewrite;
use cov_outside::Mode;
use go_ast::SourceKind;
use go_parse::SourceFault;
use std::test::Fail;

/// What it shows, the variable and the mode; the source and its covered text.
struct Row<'a>(&'a str, &'a [u8], Mode, &'a str, &'a str);

const ONE_FUNCTION: &str = "package p\n\nfunc f() {}\n";

const ROWS: [Row<'static>; 6] = [
    Row(
        "one function, set",
        b"GoCover",
        Mode::Set,
        ONE_FUNCTION,
        "//line a.go:1:1\npackage p\n\nfunc f() {GoCover.Count[0] = 1;}\n\nvar GoCover = struct {\n\tCount [1]uint32\n\tPos [3 * 1]uint32\n\tNumStmt [1]uint16\n}{\n\tPos: [3 * 1]uint32{\n\t\t3, 3, 0xc000b, // [0]\n\t},\n\tNumStmt: [1]uint16{\n\t\t0, // 0\n\t},\n}\n",
    ),
    Row(
        "one function, count",
        b"V",
        Mode::Count,
        ONE_FUNCTION,
        "//line a.go:1:1\npackage p\n\nfunc f() {V.Count[0]++;}\n\nvar V = struct {\n\tCount [1]uint32\n\tPos [3 * 1]uint32\n\tNumStmt [1]uint16\n}{\n\tPos: [3 * 1]uint32{\n\t\t3, 3, 0xc000b, // [0]\n\t},\n\tNumStmt: [1]uint16{\n\t\t0, // 0\n\t},\n}\n",
    ),
    Row(
        "one function, atomic",
        b"V",
        Mode::Atomic,
        ONE_FUNCTION,
        "//line a.go:1:1\npackage p; import _cover_atomic_ \"sync/atomic\"\n\nfunc f() {_cover_atomic_.AddUint32(&V.Count[0], 1);}\n\nvar V = struct {\n\tCount [1]uint32\n\tPos [3 * 1]uint32\n\tNumStmt [1]uint16\n}{\n\tPos: [3 * 1]uint32{\n\t\t3, 3, 0xc000b, // [0]\n\t},\n\tNumStmt: [1]uint16{\n\t\t0, // 0\n\t},\n}\nvar _ = _cover_atomic_.LoadUint32\n",
    ),
    Row(
        "no functions",
        b"V",
        Mode::Atomic,
        "package p",
        "//line a.go:1:1\npackage p; import _cover_atomic_ \"sync/atomic\"\nvar V = struct {\n\tCount [0]uint32\n\tPos [3 * 0]uint32\n\tNumStmt [0]uint16\n}{\n\tPos: [3 * 0]uint32{\n\t},\n\tNumStmt: [0]uint16{\n\t},\n}\nvar _ = _cover_atomic_.LoadUint32\n",
    ),
    Row(
        "a chain of branches",
        b"GoCover",
        Mode::Set,
        "package p\n\nfunc main() {\n\tx := 2\n\tif x == 1 {\n\t\tx = 10\n\t} else if x == 2 {\n\t\tx = 20\n\t} else {\n\t\tx = 30\n\t}\n}\n",
        "//line a.go:1:1\npackage p\n\nfunc main() {GoCover.Count[0] = 1;\n\tx := 2\n\tif x == 1 {GoCover.Count[1] = 1;\n\t\tx = 10\n\t} else{ GoCover.Count[2] = 1; if x == 2 {GoCover.Count[3] = 1;\n\t\tx = 20\n\t} else {GoCover.Count[4] = 1;\n\t\tx = 30\n\t}}\n}\n\nvar GoCover = struct {\n\tCount [5]uint32\n\tPos [3 * 5]uint32\n\tNumStmt [5]uint16\n}{\n\tPos: [3 * 5]uint32{\n\t\t3, 5, 0xc000d, // [0]\n\t\t5, 7, 0x3000c, // [1]\n\t\t7, 7, 0x130008, // [2]\n\t\t7, 9, 0x30013, // [3]\n\t\t9, 11, 0x30008, // [4]\n\t},\n\tNumStmt: [5]uint16{\n\t\t2, // 0\n\t\t1, // 1\n\t\t1, // 2\n\t\t1, // 3\n\t\t1, // 4\n\t},\n}\n",
    ),
    Row(
        "an else before a newline, and comments between else and if",
        b"V",
        Mode::Set,
        "package p\nfunc f(x bool) { if x { } else\nif x { } else /* a */ if x { } else /* b */ { g() } }",
        "//line a.go:1:1\npackage p\nfunc f(x bool) {V.Count[0] = 1; if x {V.Count[1] = 1; } else{ V.Count[2] = 1;\nif x {V.Count[3] = 1; } else{ V.Count[4] = 1; /* a */ if x {V.Count[5] = 1; } else /* b */ {V.Count[6] = 1; g() }}} }\nvar V = struct {\n\tCount [7]uint32\n\tPos [3 * 7]uint32\n\tNumStmt [7]uint16\n}{\n\tPos: [3 * 7]uint32{\n\t\t2, 2, 0x170010, // [0]\n\t\t2, 2, 0x1a0018, // [1]\n\t\t2, 3, 0x6001f, // [2]\n\t\t3, 3, 0x90007, // [3]\n\t\t3, 3, 0x1c000e, // [4]\n\t\t3, 3, 0x1f001d, // [5]\n\t\t3, 3, 0x340024, // [6]\n\t},\n\tNumStmt: [7]uint16{\n\t\t1, // 0\n\t\t0, // 1\n\t\t1, // 2\n\t\t0, // 3\n\t\t1, // 4\n\t\t0, // 5\n\t\t1, // 6\n\t},\n}\n",
    ),
];

#[test]
fn covered_texts(rt: HostRuntime) -> Result<(), Fail> {
    for row in &ROWS {
        let covered = rewrite(rt.alloc(), row.3.as_bytes(), b"a.go", row.1, row.2)?;
        assert_eq!(rt; covered.as_slice(), row.4.as_bytes(), "{}", row.0);
    }
    Ok(())
}

#[test]
fn faults_in_order(rt: HostRuntime) -> Result<(), Fail> {
    let table: [(&str, u32, SourceKind); 7] = [
        ("", 0, SourceKind::Unexpected),
        ("package p\nvar V int", 14, SourceKind::CoverName),
        ("package V", 8, SourceKind::CoverName),
        (
            "package p\nvar _cover_atomic_x int",
            14,
            SourceKind::CoverName,
        ),
        ("package p\nvar var V", 18, SourceKind::CoverName),
        ("package p\nvar V $", 16, SourceKind::BadCharacter),
        ("package p\nvar var W", 14, SourceKind::Unexpected),
    ];
    for (text, offset, kind) in table {
        let fault = rewrite(rt.alloc(), text.as_bytes(), b"a.go", b"V", Mode::Set);
        assert_eq!(rt;
            fault.err(),
            Some(SourceFault::At { offset, kind }),
            "{text}"
        );
    }
    let same = rewrite(
        rt.alloc(),
        b"package p\nvar (VV, v, _cover_atomic, Count int)",
        b"a",
        b"V",
        Mode::Set,
    );
    assert!(rt; same.is_ok());
    Ok(())
}
