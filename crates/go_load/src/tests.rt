use super::{
    Arranged, Graph, ModuleFault, arrange, is_cover_name, is_known, is_own, is_source_name,
    module_path,
};
use std::alloc::Global;
use std::test::Fail;

/// Texts with the module path that they give, if they are of the form of a `go.mod`.
const MODULES: [(&str, Option<&str>); 22] = [
    ("module example.com/m\n\ngo 1.20\n", Some("example.com/m")),
    ("module m", Some("m")),
    ("go 1.20\r\n\r\n\tmodule \t m \r\r\n", Some("m")),
    (
        "// of the example\nmodule m // the path\n//go 1\n",
        Some("m"),
    ),
    ("module m//rest\n", Some("m")),
    ("module a/b//module c\n", Some("a/b")),
    ("module caf\u{e9}\n", Some("caf\u{e9}")),
    ("module mo\rdule\n", Some("mo\rdule")),
    ("", None),
    ("go 1.20\n", None),
    ("module\n", None),
    ("modulem\n", None),
    ("module // m\n", None),
    ("module a b\n", None),
    ("module \"m\"\n", None),
    ("module 'm'\n", None),
    ("module `m`\n", None),
    ("module a\nmodule b\n", None),
    ("module m\ngo 1.20\ngo 1.21\n", None),
    ("module m\nrequire x v1.0.0\n", None),
    ("module m\n)\n", None),
    ("Module m\n", None),
];

#[test]
fn module_paths(rt: HostRuntime) -> Result<(), Fail> {
    let alloc = rt.alloc();
    for (text, path) in MODULES {
        match module_path(alloc, text.as_bytes()) {
            Ok(found) => {
                assert_eq!(rt; path.is_some(), true, "{text}");
                assert_eq!(rt; found.bytes(), path.unwrap_or("").as_bytes(), "{text}");
            }
            Err(fault) => {
                assert_eq!(rt; fault, ModuleFault::BadModule, "{text}");
                assert_eq!(rt; path.is_none(), true, "{text}");
            }
        }
    }
    Ok(())
}

#[test]
fn bytes_that_are_no_text(rt: HostRuntime) {
    let bad = module_path(rt.alloc(), b"module m // \xff\n").is_err();
    assert_eq!(rt; bad, true);
}

#[test]
fn source_names(rt: HostRuntime) {
    for (name, read) in [
        ("x.go", true),
        ("test.go", true),
        ("x_test.go.go", true),
        ("_test.go", false),
        ("x_test.go", false),
        ("_x.go", false),
        (".x.go", false),
        (".go", false),
        ("x.txt", false),
        ("x.Go", false),
        ("go", false),
        ("", false),
    ] {
        assert_eq!(rt; is_source_name(name.as_bytes()), read, "{name}");
    }
}

#[test]
fn cover_names(rt: HostRuntime) {
    for (name, reserved) in [
        ("GoCover_0", true),
        ("GoCover_7", true),
        ("GoCover_10", true),
        ("GoCover_4294967296", true),
        ("_cover_atomic_", true),
        ("_cover_atomic_x", true),
        ("GoCover", false),
        ("GoCover_", false),
        ("GoCover_00", false),
        ("GoCover_01", false),
        ("GoCover_1x", false),
        ("GoCover_x", false),
        ("GoCover__1", false),
        ("goCover_1", false),
        ("xGoCover_1", false),
        ("_cover_atomic", false),
        ("x_cover_atomic_", false),
    ] {
        assert_eq!(rt; is_cover_name(name.as_bytes()), reserved, "{name}");
    }
}

#[test]
fn import_paths(rt: HostRuntime) {
    for (path, known, own) in [
        ("example.com/m", true, true),
        ("example.com/m/a", true, true),
        ("example.com/m/fmt", true, true),
        ("example.com/m/a/b.c/...", true, true),
        ("example.com/mine", false, false),
        ("example.com/m/", false, false),
        ("example.com/m//a", false, false),
        ("example.com/m/a/", false, false),
        ("example.com/m/./a", false, false),
        ("example.com/m/a/..", false, false),
        ("example.com", false, false),
        ("", false, false),
        ("fmt", true, false),
        ("os", true, false),
        ("strconv", true, false),
        ("sync", true, false),
        ("sync/atomic", false, false),
    ] {
        let bytes = path.as_bytes();
        assert_eq!(rt; is_known(b"example.com/m", bytes), known, "{path}");
        assert_eq!(rt; is_own(b"example.com/m", bytes), own, "{path}");
    }
}

#[test]
fn import_paths_that_are_no_text(rt: HostRuntime) {
    assert_eq!(rt; is_known(b"m", b"m/\xff"), false);
    assert_eq!(rt; is_own(b"fmt", b"fmt"), false);
    assert_eq!(rt; is_own(b"fmt", b"fmt/a"), true);
}

/// The graph of packages in which each imports those that stand in its row.
fn graph(alloc: Global, imports: &[&[usize]]) -> Result<Graph, Fail> {
    let mut rows = Vec::new(alloc);
    for row in imports {
        let mut marks = Vec::new(alloc);
        for to in 0..imports.len() {
            marks.push(row.contains(&to))?;
        }
        rows.push(marks)?;
    }
    Ok(Graph::from_rows(rows))
}

/// Which packages each package imports, and their load order.
const ORDERS: [(&[&[usize]], &[usize]); 6] = [
    (&[], &[]),
    (&[&[]], &[0]),
    (&[&[1], &[]], &[1, 0]),
    (&[&[], &[0], &[]], &[0, 1, 2]),
    // What may come at last is the least, although another was found first.
    (&[&[3, 1, 2], &[], &[3], &[]], &[1, 3, 2, 0]),
    (&[&[4], &[3], &[], &[2], &[]], &[2, 3, 1, 4, 0]),
];

#[test]
fn load_orders(rt: HostRuntime) -> Result<(), Fail> {
    for (imports, want) in ORDERS {
        match arrange(rt.alloc(), &graph(rt.alloc(), imports)?)? {
            Arranged::InOrder(order) => assert_eq!(rt; order.as_slice(), want),
            Arranged::Cyclic(_) => assert_eq!(rt; true, false, "a cycle"),
        }
    }
    Ok(())
}

/// Which packages each package imports, and the least cycle.
const CYCLES: [(&[&[usize]], &[usize]); 8] = [
    (&[&[0]], &[0]),
    (&[&[1], &[2], &[1]], &[1, 2]),
    // Several cycles: through the least package, then the least list.
    (&[&[2, 1], &[2], &[0]], &[0, 1, 2]),
    (&[&[3, 1], &[2], &[0], &[0]], &[0, 1, 2]),
    (&[&[1], &[0, 2], &[0]], &[0, 1]),
    // The first way from the least package leads into a circle without it.
    (&[&[1, 3], &[2], &[1], &[0]], &[0, 3]),
    (&[&[1], &[2, 3], &[1], &[4], &[0]], &[0, 1, 3, 4]),
    (&[&[1], &[], &[4, 3], &[2], &[4]], &[2, 3]),
];

#[test]
fn cycles(rt: HostRuntime) -> Result<(), Fail> {
    for (imports, want) in CYCLES {
        match arrange(rt.alloc(), &graph(rt.alloc(), imports)?)? {
            Arranged::Cyclic(cycle) => assert_eq!(rt; cycle.as_slice(), want),
            Arranged::InOrder(_) => assert_eq!(rt; true, false, "no cycle"),
        }
    }
    Ok(())
}
