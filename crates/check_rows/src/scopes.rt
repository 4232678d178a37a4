//! Names: where they have a meaning, and which are declared twice.
use crate::checking::{MAIN, Row, differing};
use go_ast::SourceKind::{Redeclared, Undeclared};
use std::test::Fail;

const UNDECLARED: [Row; 39] = [
    ("_ = @y", Some(Undeclared)),
    ("_ = n + @y", Some(Undeclared)),
    ("fmt.Println(@y)", Some(Undeclared)),
    ("@y = 1", Some(Undeclared)),
    ("@y++", Some(Undeclared)),
    ("@y()", Some(Undeclared)),
    ("@y.z = 1", Some(Undeclared)),
    ("_ = @y.z", Some(Undeclared)),
    ("@y.z()", Some(Undeclared)),
    ("var x @point", Some(Undeclared)),
    ("var x chan @point", Some(Undeclared)),
    ("var x @float64", Some(Undeclared)),
    ("var x @error", Some(Undeclared)),
    ("@println(n)", Some(Undeclared)),
    ("_ = @iota", Some(Undeclared)),
    // Members that their packages and variables don't have.
    ("fmt.@Printf(s)", Some(Undeclared)),
    ("fmt.@println(s)", Some(Undeclared)),
    ("_ = os.@Args", Some(Undeclared)),
    ("_, _ = strconv.@Atoi(s)", Some(Undeclared)),
    ("mu.@TryLock()", Some(Undeclared)),
    ("wg.@Lock()", Some(Undeclared)),
    ("_ = n.@y", Some(Undeclared)),
    // What is never read.
    ("_ = @_", Some(Undeclared)),
    ("@_ += 1", Some(Undeclared)),
    ("@_++", Some(Undeclared)),
    ("@_()", Some(Undeclared)),
    // Behind its scope, and before it.
    ("{ x := 1; _ = x }; _ = @x", Some(Undeclared)),
    ("if x := n; x > 0 { _ = x }; _ = @x", Some(Undeclared)),
    ("for i := 0; i < 3; i++ { _ = i }; _ = @i", Some(Undeclared)),
    ("for i := range s { _ = i }; _ = @i", Some(Undeclared)),
    (
        "switch x := n; x { case 1: y := x; _ = y; case 2: _ = @y }",
        Some(Undeclared),
    ),
    (
        "select { case x := <-c: _ = x; default: _ = @x }",
        Some(Undeclared),
    ),
    ("_ = @x; x := 1; _ = x", Some(Undeclared)),
    ("x := @x", Some(Undeclared)),
    ("var x int = @x", Some(Undeclared)),
    ("const x = @x", Some(Undeclared)),
    ("const ( a = @b; b = 1 )", Some(Undeclared)),
    ("L: for ok { break L }; _ = @L", Some(Undeclared)),
    ("none(); take(one(), @a)", Some(Undeclared)),
];

const REDECLARED: [Row; 19] = [
    ("x := 1; @x := 2; _ = x", Some(Redeclared)),
    ("x, y := 1, 2; @x, y := 3, 4; _ = x + y", Some(Redeclared)),
    ("x := 1; @x, _ := 3, 4; _ = x", Some(Redeclared)),
    ("@_ := n", Some(Redeclared)),
    ("@_, _ := two()", Some(Redeclared)),
    ("x, @x := 1, 2", Some(Redeclared)),
    ("var x int; var @x string; _ = x", Some(Redeclared)),
    ("var x, @x int", Some(Redeclared)),
    ("const x = 1; var @x = 2; _ = x", Some(Redeclared)),
    ("x := 1; const @x = 2; _ = x", Some(Redeclared)),
    ("const ( x = 1; @x = 2 )", Some(Redeclared)),
    ("select { case x := <-c: @x := 1; _ = x }", Some(Redeclared)),
    (
        "select { case x := <-c: var @x int; _ = x }",
        Some(Redeclared),
    ),
    ("select { case x, @x := <-c: _ = x }", Some(Redeclared)),
    ("for x, @x := range s { _ = x }", Some(Redeclared)),
    ("@for _ := range s {}", Some(Redeclared)),
    ("@for _, _ := range s {}", Some(Redeclared)),
    ("select { case @_ := <-c: }", Some(Redeclared)),
    ("select { case @_, _ := <-c: }", Some(Redeclared)),
];

const ACCEPTED: [Row; 20] = [
    ("x := 1; { x := \"a\"; _ = x }; _ = x + n", None),
    ("n := \"a\"; _ = n + s", None),
    ("true := 1; _ = true + n", None),
    ("int := 2; _ = int", None),
    ("len := 3; _ = len", None),
    ("nil := 1; _ = nil + n", None),
    ("fmt := 1; _ = fmt", None),
    ("init := 1; _ = init", None),
    ("panic := n; _ = panic", None),
    ("main := n; _ = main", None),
    ("if x := n; ok { x := s; _ = x } else { _ = x + 1 }", None),
    ("if x := n; ok { } else if y := x; ok { _ = y }", None),
    ("x, y := 1, 2; x, z := 3, 4; _ = x + y + z", None),
    ("x, _ := two(); _ = x", None),
    ("_, _ = n, s; var _ = n; const _ = 1; const _ = 2", None),
    ("var _, x = 1, 2; _ = x", None),
    ("switch x := n; x { case 1: x := s; _ = x }", None),
    ("for i := 0; i < 3; i++ { i := s; _ = i }", None),
    ("for i := range s { _ = i; i := s; _ = i }", None),
    (
        "if x := n; x == 1 { var x = s; _ = x }; _ = 1; x := 2; _ = x",
        None,
    ),
];

#[test]
fn undeclared_names(rt: HostRuntime) -> Result<(), Fail> {
    let wrong = differing(rt.alloc(), MAIN, &UNDECLARED)?;
    assert_eq!(rt; wrong.as_str(), "");
    Ok(())
}

#[test]
fn names_declared_twice(rt: HostRuntime) -> Result<(), Fail> {
    let wrong = differing(rt.alloc(), MAIN, &REDECLARED)?;
    assert_eq!(rt; wrong.as_str(), "");
    Ok(())
}

#[test]
fn names_with_a_meaning(rt: HostRuntime) -> Result<(), Fail> {
    let wrong = differing(rt.alloc(), MAIN, &ACCEPTED)?;
    assert_eq!(rt; wrong.as_str(), "");
    Ok(())
}
