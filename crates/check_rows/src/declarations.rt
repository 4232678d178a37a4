//! Declarations of packages: names, types, `main` and imports.
use crate::checking::{FILE, PACKAGE, Row, differing};
use go_ast::SourceKind::{
    BadName, Redeclared, Undeclared, UnusedImport, UnusedVariable, WrongType,
};
use std::test::Fail;

const NAMES: [Row; 22] = [
    ("func @init() {}", Some(BadName)),
    ("func @init(a int) {}", Some(BadName)),
    ("func f() { init() }\nfunc @init() {}", Some(BadName)),
    ("var a int\nvar @a string", Some(Redeclared)),
    ("var a, @a int", Some(Redeclared)),
    ("const ( a = 1; @a = 2 )", Some(Redeclared)),
    ("const a = 1\nfunc @a() {}", Some(Redeclared)),
    ("func a() {}\nvar @a int", Some(Redeclared)),
    ("func a() {}\nfunc @a() {}", Some(Redeclared)),
    ("func f(a int, @a string) {}", Some(Redeclared)),
    ("func f(a, @a int) {}", Some(Redeclared)),
    ("func f(a int) { @a := 1; _ = a }", Some(Redeclared)),
    ("func f(a int) { var @a int; _ = a }", Some(Redeclared)),
    ("func f(a int) { a, b := 1, a; _ = b }", None),
    ("func f(a int) { { a := \"a\"; _ = a } }", None),
    ("func f(f int) int { return f }", None),
    ("func f(_ int, _ string) {}", None),
    (
        "var _ = 1\nvar _, _ int\nconst _ = 1\nfunc _() {}\nfunc _() {}",
        None,
    ),
    ("func _() { @x := 1 }", Some(UnusedVariable)),
    ("var init int", None),
    ("const len = 3\nvar x = len\nfunc cap() {}", None),
    ("func f(a int) {}\nvar unread int", None),
];

const TYPES: [Row; 14] = [
    ("var x @point", Some(Undeclared)),
    ("func f(a @point) {}", Some(Undeclared)),
    ("func f(a int) @point { return a }", Some(Undeclared)),
    (
        "func f() (int, chan @point) { return 1, nil }",
        Some(Undeclared),
    ),
    ("const a @point = 1", Some(Undeclared)),
    ("var x @f\nfunc f() {}", Some(WrongType)),
    ("func f(a @b) {}\nvar b int", Some(WrongType)),
    ("func f() string { return @1 }", Some(WrongType)),
    ("func f(a string) int { return (@a) }", Some(WrongType)),
    ("func f() (int, string) { return 1, @2 }", Some(WrongType)),
    (
        "func f() (string, string) { return @g() }\nfunc g() (string, int) { return \"a\", 1 }",
        Some(WrongType),
    ),
    ("func f(a chan int) chan int { return a }", None),
    (
        "func f(a, b int, s string) (int, string) { return a + b, s }",
        None,
    ),
    ("func f(a int) int { return f(a) }", None),
];

const FILES: [Row; 28] = [
    ("package main\nfunc @main(a int) {}", Some(BadName)),
    ("package main\nfunc @main() int { return 1 }", Some(BadName)),
    ("@package main\n", Some(BadName)),
    ("@// of the example\n\npackage main\n", Some(BadName)),
    ("@package main\nvar main int\n", Some(BadName)),
    ("@package main\nconst main = 1\n", Some(BadName)),
    ("@package main\nfunc Main() {}\n", Some(BadName)),
    ("package main\nfunc f() { @x := 1 }\n", Some(UnusedVariable)),
    ("package main\nimport @\"fmt\"\n", Some(UnusedImport)),
    (
        "package main\nfunc main() {}\nfunc @main() {}\n",
        Some(Redeclared),
    ),
    (
        "package main\nimport @\"fmt\"\nfunc main() {}\n",
        Some(UnusedImport),
    ),
    (
        "package main\nimport @\"sync\"\nfunc main() {}\n",
        Some(UnusedImport),
    ),
    (
        "package main\nimport (\n\t@\"fmt\"\n\t\"os\"\n)\nfunc main() {}\n",
        Some(UnusedImport),
    ),
    (
        "package main\nimport (\n\t\"os\"\n\t@\"fmt\"\n)\nfunc main() { os.Exit(1) }\n",
        Some(UnusedImport),
    ),
    (
        "package main\nimport @\"fmt\"\nfunc main() { fmt := 1; _ = fmt }\n",
        Some(UnusedImport),
    ),
    (
        "package main\nimport @\"fmt\"\nfunc f(fmt int) int { return fmt }\nfunc main() {}\n",
        Some(UnusedImport),
    ),
    (
        "package main\nimport \"fmt\"\nimport @\"fmt\"\nfunc main() {}\n",
        Some(Redeclared),
    ),
    (
        "package main\nimport \"fmt\"\nvar @fmt int\nfunc main() {}\n",
        Some(Redeclared),
    ),
    (
        "package main\nimport \"os\"\nfunc @os() {}\nfunc main() {}\n",
        Some(Redeclared),
    ),
    (
        "package main\nimport \"fmt\"\nfunc main() { fmt.Println() }\n",
        None,
    ),
    (
        "package main\nimport \"sync\"\nvar mu sync.Mutex\nfunc main() {}\n",
        None,
    ),
    (
        "package main\nimport \"sync\"\nvar a, b sync.WaitGroup\nfunc main() { a.Wait(); b.Wait() }\n",
        None,
    ),
    (
        "package main\nimport \"sync\"\nvar c chan @sync.Mutex\nfunc main() {}\n",
        Some(WrongType),
    ),
    (
        "package main\nimport \"sync\"\nfunc f(a @sync.Mutex) {}\nfunc main() {}\n",
        Some(WrongType),
    ),
    (
        "package main\nimport \"sync\"\nfunc f() @sync.WaitGroup {}\nfunc main() {}\n",
        Some(WrongType),
    ),
    (
        "package main\nimport \"sync\"\nconst a @sync.Mutex = 1\nfunc main() {}\n",
        Some(WrongType),
    ),
    (
        "package main\nimport \"sync\"\nvar a sync.@Once\nfunc main() {}\n",
        Some(Undeclared),
    ),
    ("package main\nfunc main() {}\n", None),
];

#[test]
fn names_of_packages(rt: HostRuntime) -> Result<(), Fail> {
    let wrong = differing(rt.alloc(), PACKAGE, &NAMES)?;
    assert_eq!(rt; wrong.as_str(), "");
    Ok(())
}

#[test]
fn types_of_declarations(rt: HostRuntime) -> Result<(), Fail> {
    let wrong = differing(rt.alloc(), PACKAGE, &TYPES)?;
    assert_eq!(rt; wrong.as_str(), "");
    Ok(())
}

#[test]
fn whole_files(rt: HostRuntime) -> Result<(), Fail> {
    let wrong = differing(rt.alloc(), FILE, &FILES)?;
    assert_eq!(rt; wrong.as_str(), "");
    Ok(())
}
