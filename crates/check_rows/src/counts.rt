//! Numbers of values, arguments, targets and results.
use crate::checking::{MAIN, PACKAGE, Row, differing};
use go_ast::SourceKind::WrongCount;
use std::test::Fail;

const STATEMENTS: [Row; 16] = [
    ("@n, m = 1", Some(WrongCount)),
    ("@n = 1, 2", Some(WrongCount)),
    ("@n, s = one()", Some(WrongCount)),
    ("@n, s, ok = two()", Some(WrongCount)),
    ("n, s = @two(), 1, 2", Some(WrongCount)),
    ("@x, y := 1", Some(WrongCount)),
    ("@x, y, z := two()", Some(WrongCount)),
    ("@x, y, z := <-c", Some(WrongCount)),
    ("@var x, y = 1", Some(WrongCount)),
    ("@var x int = 1, 2", Some(WrongCount)),
    ("@for a, b := range c {}", Some(WrongCount)),
    ("@for a, b, d := range s {}", Some(WrongCount)),
    ("select { case @x, y, z := <-c: }", Some(WrongCount)),
    ("select { case @n, ok, m = <-c: }", Some(WrongCount)),
    ("@return 1", Some(WrongCount)),
    ("@return n, s", Some(WrongCount)),
];

const CALLS: [Row; 30] = [
    ("@none(1)", Some(WrongCount)),
    ("@take(1)", Some(WrongCount)),
    ("@take(1, \"a\", 2)", Some(WrongCount)),
    ("go @take()", Some(WrongCount)),
    ("defer @none(n)", Some(WrongCount)),
    ("@panic()", Some(WrongCount)),
    ("@panic(1, 2)", Some(WrongCount)),
    ("@os.Exit()", Some(WrongCount)),
    ("_ = @strconv.Itoa(1, 2)", Some(WrongCount)),
    ("_ = @len()", Some(WrongCount)),
    ("_ = @len(s, s)", Some(WrongCount)),
    ("_ = @cap()", Some(WrongCount)),
    ("@close()", Some(WrongCount)),
    ("@close(c, c)", Some(WrongCount)),
    ("_ = @make()", Some(WrongCount)),
    ("_ = @make(chan int, 1, 2)", Some(WrongCount)),
    ("@mu.Lock(1)", Some(WrongCount)),
    ("@wg.Add()", Some(WrongCount)),
    ("_ = @int()", Some(WrongCount)),
    ("_ = @int(1, 2)", Some(WrongCount)),
    // A call that has no value, or two.
    ("x := @none()", Some(WrongCount)),
    ("x := @two()", Some(WrongCount)),
    ("n = @two()", Some(WrongCount)),
    ("take(@two())", Some(WrongCount)),
    ("fmt.Println(@none())", Some(WrongCount)),
    ("_ = @two() + 1", Some(WrongCount)),
    ("_ = 1 + @none()", Some(WrongCount)),
    ("if @none() {}", Some(WrongCount)),
    ("c <- @none()", Some(WrongCount)),
    ("switch @none() {}", Some(WrongCount)),
];

const RESULTS: [Row; 9] = [
    ("func f() int { @return }", Some(WrongCount)),
    ("func f() int { @return 1, 2 }", Some(WrongCount)),
    ("func f() (int, string) { @return 1 }", Some(WrongCount)),
    ("func f() { @return 1 }", Some(WrongCount)),
    ("var @x, y = 1", Some(WrongCount)),
    ("var @x int = 1, 2", Some(WrongCount)),
    ("func f() (int, string) { return 1, \"a\" }", None),
    ("func f() (int, string) { return f() }", None),
    ("func f() { return }", None),
];

const ACCEPTED: [Row; 7] = [
    ("n, s = two()", None),
    ("x, y := two(); _, _ = x, y", None),
    ("var x, y = two(); _, _ = x, y", None),
    ("x, more := <-c; _, _ = x, more", None),
    ("n, ok = <-c", None),
    ("n, m = m, n", None),
    (
        "select { case n, ok = <-c: case _, more := <-c: ok = more }",
        None,
    ),
];

#[test]
fn counts_in_statements(rt: HostRuntime) -> Result<(), Fail> {
    let wrong = differing(rt.alloc(), MAIN, &STATEMENTS)?;
    assert_eq!(rt; wrong.as_str(), "");
    Ok(())
}

#[test]
fn counts_in_calls(rt: HostRuntime) -> Result<(), Fail> {
    let wrong = differing(rt.alloc(), MAIN, &CALLS)?;
    assert_eq!(rt; wrong.as_str(), "");
    Ok(())
}

#[test]
fn counts_of_results(rt: HostRuntime) -> Result<(), Fail> {
    let wrong = differing(rt.alloc(), PACKAGE, &RESULTS)?;
    assert_eq!(rt; wrong.as_str(), "");
    Ok(())
}

#[test]
fn equal_counts(rt: HostRuntime) -> Result<(), Fail> {
    let wrong = differing(rt.alloc(), MAIN, &ACCEPTED)?;
    assert_eq!(rt; wrong.as_str(), "");
    Ok(())
}
