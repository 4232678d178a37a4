//! Modules of several files and packages.
use crate::loading::agrees;
use go_ast::SourceKind::{self, BadName, Redeclared, Undeclared, UnusedImport, UnusedVariable};
use std::fmt::Write;
use std::test::Fail;

/// Files of a module, of which one has the mark of the first fault, and its kind; or files that are accepted.
type Case = (&'static [(&'static str, &'static str)], Option<SourceKind>);

const CASES: [Case; 30] = [
    // Packages in load order.
    (
        &[
            (
                "m/m.go",
                "package main\nimport \"e.org/m/a\"\nfunc main() { a.F(); _ = z }\n",
            ),
            ("m/a/a.go", "package a\nfunc F() { _ = @y }\n"),
        ],
        Some(Undeclared),
    ),
    (
        &[
            (
                "m/m.go",
                "package main\nimport (\n\"e.org/m/b\"\n\"e.org/m/a\"\n)\nfunc main() { a.F(); b.F() }\n",
            ),
            ("m/a/a.go", "package a\nfunc F() { @x := 1 }\n"),
            ("m/b/b.go", "package b\nfunc init() {}\n"),
        ],
        Some(UnusedVariable),
    ),
    (
        &[
            (
                "m/m.go",
                "package main\nimport \"e.org/m/a\"\nfunc main() { a.F() }\n",
            ),
            (
                "m/a/a.go",
                "package a\nimport \"e.org/m/b\"\nfunc F() { _ = y; b.F() }\n",
            ),
            ("m/b/b.go", "package b\nfunc F() { _ = @z }\n"),
        ],
        Some(Undeclared),
    ),
    (
        &[
            (
                "m/m.go",
                "package main\nimport \"e.org/m/a\"\nfunc init() { a.F() }\n",
            ),
            ("m/a/a.go", "package a\nimport @\"fmt\"\nfunc F() {}\n"),
        ],
        Some(UnusedImport),
    ),
    (
        &[
            (
                "m/m.go",
                "package main\nimport \"e.org/m/a\"\nfunc main() { a.F() }\n",
            ),
            ("m/a/a.go", "package a\nfunc F() {}\nfunc @init() {}\n"),
        ],
        Some(BadName),
    ),
    // Files in order of name, but the phases of a package come one after the other.
    (
        &[
            ("m/b.go", "package main\nfunc g() { _ = z }\n"),
            ("m/a.go", "package main\nfunc main() { _ = @y }\n"),
        ],
        Some(Undeclared),
    ),
    (
        &[
            ("m/a.go", "package main\nfunc main() { _ = y }\n"),
            ("m/b.go", "package main\nfunc g(n @point) {}\n"),
        ],
        Some(Undeclared),
    ),
    (
        &[
            ("m/a.go", "package main\nfunc main(n int) {}\n"),
            ("m/b.go", "package main\nconst a = @b\n"),
        ],
        Some(Undeclared),
    ),
    (
        &[
            ("m/a.go", "package main\nconst a = b\nfunc main() {}\n"),
            ("m/b.go", "package main\nfunc @init() {}\n"),
        ],
        Some(BadName),
    ),
    (
        &[
            ("m/a.go", "package main\nimport \"fmt\"\nfunc main() {}\n"),
            ("m/b.go", "package main\nfunc g() { @x := 1 }\n"),
        ],
        Some(UnusedVariable),
    ),
    (
        &[
            ("m/a.go", "package main\nconst a = @b\nfunc main() {}\n"),
            ("m/b.go", "package main\nconst b = 1\n"),
        ],
        Some(Undeclared),
    ),
    (
        &[
            ("m/a.go", "package main\nconst a = 1\nfunc main() {}\n"),
            ("m/b.go", "package main\nconst b = a\n"),
        ],
        None,
    ),
    (
        &[
            ("m/a.go", "package main\nvar x = b\nfunc main() { g(x) }\n"),
            ("m/b.go", "package main\nconst b = 1\nfunc g(n int) {}\n"),
        ],
        None,
    ),
    // Imports are names of their file.
    (
        &[
            (
                "m/a.go",
                "package main\nimport \"fmt\"\nfunc main() { fmt.Println() }\n",
            ),
            ("m/b.go", "package main\nimport @\"fmt\"\n"),
        ],
        Some(UnusedImport),
    ),
    (
        &[
            ("m/a.go", "package main\nimport @\"fmt\"\nfunc main() {}\n"),
            (
                "m/b.go",
                "package main\nimport \"fmt\"\nfunc g() { fmt.Println() }\n",
            ),
        ],
        Some(UnusedImport),
    ),
    (
        &[
            ("m/a.go", "package main\nimport @\"os\"\nfunc main() {}\n"),
            ("m/b.go", "package main\nimport \"fmt\"\n"),
        ],
        Some(UnusedImport),
    ),
    (
        &[
            (
                "m/a.go",
                "package main\nimport \"fmt\"\nfunc main() { fmt.Println() }\n",
            ),
            ("m/b.go", "package main\nfunc g() { @fmt.Println() }\n"),
        ],
        Some(Undeclared),
    ),
    (
        &[
            (
                "m/a.go",
                "package main\nimport \"fmt\"\nfunc main() { fmt.Println() }\n",
            ),
            (
                "m/b.go",
                "package main\nimport \"fmt\"\nfunc g() { fmt.Println() }\n",
            ),
        ],
        None,
    ),
    (
        &[
            (
                "m/m.go",
                "package main\nimport @\"e.org/m/a\"\nfunc main() {}\n",
            ),
            ("m/a/a.go", "package a\n"),
        ],
        Some(UnusedImport),
    ),
    (
        &[
            (
                "m/m.go",
                "package main\nimport @\"e.org/m/a\"\nfunc main() { a := 1; _ = a }\n",
            ),
            ("m/a/a.go", "package a\n"),
        ],
        Some(UnusedImport),
    ),
    // Names of a package are those of all its files.
    (
        &[
            ("m/a.go", "package main\nvar x int\nfunc main() {}\n"),
            ("m/b.go", "package main\nfunc @x() {}\n"),
        ],
        Some(Redeclared),
    ),
    (
        &[
            ("m/a.go", "package main\nfunc main() {}\n"),
            ("m/b.go", "package main\nfunc @main() {}\n"),
        ],
        Some(Redeclared),
    ),
    (
        &[
            ("m/a.go", "package main\nvar fmt int\nfunc main() {}\n"),
            ("m/b.go", "package main\nimport @\"fmt\"\n"),
        ],
        Some(Redeclared),
    ),
    (
        &[
            (
                "m/m.go",
                "package main\nimport (\n\"e.org/m/a\"\n@\"e.org/m/b/a\"\n)\nfunc main() { a.F() }\n",
            ),
            ("m/a/a.go", "package a\nfunc F() {}\n"),
            ("m/b/a/a.go", "package a\nfunc F() {}\n"),
        ],
        Some(Redeclared),
    ),
    // `main` of the root is missing.
    (
        &[
            ("m/b.go", "package main\n"),
            ("m/a.go", "@// the first\npackage main\nfunc f() {}\n"),
        ],
        Some(BadName),
    ),
    (
        &[
            (
                "m/m.go",
                "@package main\nimport \"e.org/m/a\"\nvar x = a.X\n",
            ),
            ("m/a/a.go", "package a\nconst X = 1\nfunc main() {}\n"),
        ],
        Some(BadName),
    ),
    (
        &[
            ("m/a.go", "package main\n"),
            ("m/b.go", "package main\nimport @\"fmt\"\n"),
        ],
        Some(UnusedImport),
    ),
    (
        &[
            ("m/a.go", "package main\nfunc f() {}\n"),
            ("m/b.go", "package main\nfunc main() { f() }\n"),
        ],
        None,
    ),
    (
        &[
            (
                "m/m.go",
                "package main\nimport \"e.org/m/a\"\nfunc main() { _ = a.X }\n",
            ),
            (
                "m/a/a.go",
                "package a\nvar X int\nvar init int\nfunc main() int { return X }\n",
            ),
        ],
        None,
    ),
    (
        &[
            (
                "m/m.go",
                "package main\nimport (\n\"e.org/m/a\"\n\"e.org/m/b\"\n)\nfunc main() { a.F(b.F()) }\n",
            ),
            ("m/a/a.go", "package a\nfunc F(n int) {}\n"),
            (
                "m/b/b.go",
                "package b\nimport \"e.org/m/a\"\nfunc F() int { a.F(1); return 2 }\n",
            ),
        ],
        None,
    ),
];

#[test]
fn files_and_packages(rt: HostRuntime) -> Result<(), Fail> {
    let mut wrong = String::new(rt.alloc());
    for (number, (paths, kind)) in CASES.iter().enumerate() {
        if !agrees(rt.alloc(), paths, *kind)? {
            writeln!(wrong, "{number}")?;
        }
    }
    assert_eq!(rt; wrong.as_str(), "");
    Ok(())
}
