//! What `go`, `defer` and expression statements may be.
use crate::checking::{MAIN, Row, differing};
use go_ast::SourceKind::{BadCall, Undeclared, WrongType};
use std::test::Fail;

const STARTS: [Row; 15] = [
    ("@go n", Some(BadCall)),
    ("@go 1", Some(BadCall)),
    ("@go <-c", Some(BadCall)),
    ("@go (none())", Some(BadCall)),
    ("@go fmt.Println(n)", Some(BadCall)),
    ("@go mu.Unlock()", Some(BadCall)),
    ("@go wg.Done()", Some(BadCall)),
    ("@go close(c)", Some(BadCall)),
    ("@go panic(1)", Some(BadCall)),
    ("@go len(s)", Some(BadCall)),
    ("@go int(n)", Some(BadCall)),
    ("@go os.Exit(1)", Some(BadCall)),
    ("@go strconv.Itoa(n)", Some(BadCall)),
    ("go len(@y)", Some(Undeclared)),
    ("go take(1, @2)", Some(WrongType)),
];

const DEFERRED: [Row; 13] = [
    ("@defer n", Some(BadCall)),
    ("@defer <-c", Some(BadCall)),
    ("@defer (none())", Some(BadCall)),
    ("@defer mu.Lock()", Some(BadCall)),
    ("@defer wg.Wait()", Some(BadCall)),
    ("@defer wg.Add(1)", Some(BadCall)),
    ("@defer panic(1)", Some(BadCall)),
    ("@defer os.Exit(1)", Some(BadCall)),
    ("@defer strconv.Itoa(1)", Some(BadCall)),
    ("@defer make(chan int)", Some(BadCall)),
    ("@defer string(n)", Some(BadCall)),
    ("defer panic(@y)", Some(Undeclared)),
    ("defer take(@s, s)", Some(WrongType)),
];

const EXPRESSIONS: [Row; 17] = [
    ("@n", Some(BadCall)),
    ("@(n)", Some(BadCall)),
    ("@n + 1", Some(BadCall)),
    ("@\"a\"", Some(BadCall)),
    ("@-n", Some(BadCall)),
    ("@!ok", Some(BadCall)),
    ("@s[0]", Some(BadCall)),
    ("@s[1:]", Some(BadCall)),
    ("@len(s)", Some(BadCall)),
    ("@cap(c)", Some(BadCall)),
    ("@make(chan int)", Some(BadCall)),
    ("@int(n)", Some(BadCall)),
    ("@strconv.Itoa(1)", Some(BadCall)),
    ("if @n; ok {}", Some(BadCall)),
    ("for @n; ok; {}", Some(BadCall)),
    ("for ; ok; @n {}", Some(BadCall)),
    ("len(@y)", Some(Undeclared)),
];

const ACCEPTED: [Row; 22] = [
    ("go none()", None),
    ("go two()", None),
    ("go take(1, \"a\")", None),
    ("defer none()", None),
    ("defer two()", None),
    ("defer wg.Done()", None),
    ("defer mu.Unlock()", None),
    ("defer close(c)", None),
    ("defer fmt.Println(n, s)", None),
    ("<-c", None),
    ("(<-c)", None),
    ("none()", None),
    ("(none())", None),
    ("one(); two()", None),
    ("mu.Lock(); mu.Unlock()", None),
    ("wg.Add(1); wg.Done(); wg.Wait()", None),
    ("fmt.Println()", None),
    ("fmt.Println(1, \"a\", true, 'c', n, ok, u8)", None),
    ("close(c)", None),
    ("panic(1)", None),
    ("os.Exit(1)", None),
    ("for none(); ok; one() {}", None),
];

#[test]
fn starts_of_goroutines(rt: HostRuntime) -> Result<(), Fail> {
    let wrong = differing(rt.alloc(), MAIN, &STARTS)?;
    assert_eq!(rt; wrong.as_str(), "");
    Ok(())
}

#[test]
fn deferred_calls(rt: HostRuntime) -> Result<(), Fail> {
    let wrong = differing(rt.alloc(), MAIN, &DEFERRED)?;
    assert_eq!(rt; wrong.as_str(), "");
    Ok(())
}

#[test]
fn expressions_as_statements(rt: HostRuntime) -> Result<(), Fail> {
    let wrong = differing(rt.alloc(), MAIN, &EXPRESSIONS)?;
    assert_eq!(rt; wrong.as_str(), "");
    Ok(())
}

#[test]
fn calls_as_statements(rt: HostRuntime) -> Result<(), Fail> {
    let wrong = differing(rt.alloc(), MAIN, &ACCEPTED)?;
    assert_eq!(rt; wrong.as_str(), "");
    Ok(())
}
