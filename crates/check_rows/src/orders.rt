//! Sources with several faults: which of them is met first.
use crate::checking::{MAIN, PACKAGE, Row, differing};
use go_ast::SourceKind::{
    BadName, MissingReturn, NotConstant, Redeclared, Undeclared, UnusedLabel, UnusedVariable,
    WrongCount, WrongType,
};
use std::test::Fail;

const STATEMENTS: [Row; 42] = [
    // Operands before operators, left to right.
    ("_ = @y + z", Some(Undeclared)),
    ("_ = @y + (n + s)", Some(Undeclared)),
    ("_ = (@n + s) + y", Some(WrongType)),
    ("_ = @n + s + y", Some(WrongType)),
    ("_ = n + @y + s", Some(Undeclared)),
    ("_ = s + n * @y", Some(Undeclared)),
    ("_ = s[@y:z]", Some(Undeclared)),
    ("_ = n[@y]", Some(Undeclared)),
    ("_ = @y[z]", Some(Undeclared)),
    ("_ = -@y", Some(Undeclared)),
    ("_ = int(@y, z)", Some(Undeclared)),
    ("@y(z)", Some(Undeclared)),
    ("take(@y, z)", Some(Undeclared)),
    ("take(s, @y)", Some(Undeclared)),
    ("take(@y)", Some(Undeclared)),
    ("@take(s)", Some(WrongCount)),
    ("take(@s, 1)", Some(WrongType)),
    ("take(@n + s, y)", Some(WrongType)),
    // Targets before values, then counts, then types.
    ("@y = z", Some(Undeclared)),
    ("n, @y = z, s", Some(Undeclared)),
    ("n, m = s, @y", Some(Undeclared)),
    ("@n = s, 1", Some(WrongCount)),
    ("n, i8 = @s, n", Some(WrongType)),
    ("@y += z", Some(Undeclared)),
    ("x := 1; @x := s; _ = x", Some(Redeclared)),
    ("x := 1; x := @y; _ = x", Some(Undeclared)),
    ("@y <- z", Some(Undeclared)),
    ("n <- @y", Some(Undeclared)),
    ("switch @y { case z: }", Some(Undeclared)),
    ("switch n { case @y, z: }", Some(Undeclared)),
    ("switch n { case 1: _ = @y; case s: }", Some(Undeclared)),
    ("if x := @y; z {}", Some(Undeclared)),
    ("for i := @y; z; {}", Some(Undeclared)),
    ("select { case <-@y: _ = z }", Some(Undeclared)),
    // Statement by statement, and at last what isn't used.
    ("_ = @y; _ = z", Some(Undeclared)),
    ("_ = @n + s; _ = y", Some(WrongType)),
    ("if ok { _ = @y }; _ = z", Some(Undeclared)),
    ("if ok { } else { _ = @y }; _ = z", Some(Undeclared)),
    ("for ok { _ = @y }; break", Some(Undeclared)),
    ("x := 1; _ = @y", Some(Undeclared)),
    ("L: for ok {}; _ = @y", Some(Undeclared)),
    ("@L: for ok {}; x := 1", Some(UnusedLabel)),
];

const PACKAGES: [Row; 16] = [
    // Names, then constants and variables, then signatures, then bodies.
    ("const a = b\nfunc @init() {}", Some(BadName)),
    ("var x = y\nvar @x int", Some(Redeclared)),
    (
        "func f() { _ = y }\nvar f1 int\nfunc @f() {}",
        Some(Redeclared),
    ),
    ("func g(a point) {}\nconst a = @b", Some(Undeclared)),
    ("func f() { _ = y }\nvar x @point", Some(Undeclared)),
    ("func f() { _ = y }\nfunc g(a @point) {}", Some(Undeclared)),
    ("func f(a @point) point {}", Some(Undeclared)),
    ("var x @point = y", Some(Undeclared)),
    ("const a = @b\nvar x = c", Some(Undeclared)),
    ("var x = @y\nconst a = b\nvar y = 1", Some(NotConstant)),
    // A constant that a variable needs comes before the variable.
    ("var x int8 = a\nconst a = @b", Some(Undeclared)),
    (
        "var x string = @a\nconst a = 1\nconst b = c",
        Some(WrongType),
    ),
    // Bodies one after the other, each to its end.
    (
        "func f() { @x := 1 }\nfunc g() { _ = y }",
        Some(UnusedVariable),
    ),
    (
        "func f() { @L: for {} }\nfunc g() { x := 1 }",
        Some(UnusedLabel),
    ),
    (
        "func f() int { x := 1 @}\nfunc g() { _ = y }",
        Some(MissingReturn),
    ),
    ("func f() int { _ = @y }", Some(Undeclared)),
];

#[test]
fn first_faults_of_statements(rt: HostRuntime) -> Result<(), Fail> {
    let wrong = differing(rt.alloc(), MAIN, &STATEMENTS)?;
    assert_eq!(rt; wrong.as_str(), "");
    Ok(())
}

#[test]
fn first_faults_of_packages(rt: HostRuntime) -> Result<(), Fail> {
    let wrong = differing(rt.alloc(), PACKAGE, &PACKAGES)?;
    assert_eq!(rt; wrong.as_str(), "");
    Ok(())
}
