//! Types of operands, values, arguments and places.
use crate::checking::{MAIN, Row, differing};
use go_ast::SourceKind::WrongType;
use std::test::Fail;

const OPERATORS: [Row; 38] = [
    ("_ = @n + s", Some(WrongType)),
    ("_ = @n + i64", Some(WrongType)),
    ("_ = @i8 + n", Some(WrongType)),
    ("_ = @r + u8", Some(WrongType)),
    ("_ = @n + \"a\"", Some(WrongType)),
    ("_ = @s + 128", Some(WrongType)),
    ("_ = @1 + \"a\"", Some(WrongType)),
    ("_ = @1 + true", Some(WrongType)),
    ("_ = @s - s", Some(WrongType)),
    ("_ = @s * 2", Some(WrongType)),
    ("_ = @\"a\" - \"b\"", Some(WrongType)),
    ("_ = @ok + ok", Some(WrongType)),
    ("_ = @ok & ok", Some(WrongType)),
    ("_ = @s | s", Some(WrongType)),
    ("_ = @ok < ok", Some(WrongType)),
    ("_ = @true < false", Some(WrongType)),
    ("_ = @c < c", Some(WrongType)),
    ("_ = @n && ok", Some(WrongType)),
    ("_ = @ok || n", Some(WrongType)),
    ("_ = @1 && 2", Some(WrongType)),
    ("_ = @!n", Some(WrongType)),
    ("_ = @-s", Some(WrongType)),
    ("_ = @+ok", Some(WrongType)),
    ("_ = @^ok", Some(WrongType)),
    ("_ = @<-n", Some(WrongType)),
    ("_ = @n == s", Some(WrongType)),
    ("_ = @c == cs", Some(WrongType)),
    ("_ = @nil == nil", Some(WrongType)),
    ("_ = @n == nil", Some(WrongType)),
    ("_ = @s << 1", Some(WrongType)),
    ("_ = @n << s", Some(WrongType)),
    ("_ = @1 << \"a\"", Some(WrongType)),
    ("_ = n + (@s - s)", Some(WrongType)),
    ("@n += s", Some(WrongType)),
    ("@s -= s", Some(WrongType)),
    ("@ok += ok", Some(WrongType)),
    ("@s++", Some(WrongType)),
    ("@c--", Some(WrongType)),
];

const VALUES: [Row; 50] = [
    ("n = @s", Some(WrongType)),
    ("s = @1", Some(WrongType)),
    ("n = @\"a\"", Some(WrongType)),
    ("ok = @1", Some(WrongType)),
    ("i8 = @n", Some(WrongType)),
    ("n = @i64", Some(WrongType)),
    ("c = @cs", Some(WrongType)),
    ("c = @cc", Some(WrongType)),
    ("n = (@s)", Some(WrongType)),
    ("n = @s[0]", Some(WrongType)),
    ("n = @n == m", Some(WrongType)),
    ("n, s = n, @n", Some(WrongType)),
    ("n, m = @two()", Some(WrongType)),
    ("n, m = @<-c", Some(WrongType)),
    ("var x int = @s", Some(WrongType)),
    ("var x string = @1", Some(WrongType)),
    ("cs = @make(chan int)", Some(WrongType)),
    ("x := @nil", Some(WrongType)),
    ("_ = @nil", Some(WrongType)),
    ("n = @nil", Some(WrongType)),
    ("if @n {}", Some(WrongType)),
    ("if (@1) {}", Some(WrongType)),
    ("for @s {}", Some(WrongType)),
    ("switch { case @1: }", Some(WrongType)),
    ("switch n { case @\"a\": }", Some(WrongType)),
    ("switch s { case @n: }", Some(WrongType)),
    ("for range @n {}", Some(WrongType)),
    ("for x := range @ok { _ = x }", Some(WrongType)),
    ("@n <- 1", Some(WrongType)),
    ("c <- @s", Some(WrongType)),
    ("cs <- @1", Some(WrongType)),
    ("select { case c <- @s: }", Some(WrongType)),
    ("select { case @s = <-c: }", Some(WrongType)),
    ("select { case n, @n = <-c: }", Some(WrongType)),
    ("take(@s, s)", Some(WrongType)),
    ("take(1, @2)", Some(WrongType)),
    ("fmt.Println(@c)", Some(WrongType)),
    ("fmt.Println(n, @nil)", Some(WrongType)),
    ("panic(@c)", Some(WrongType)),
    ("os.Exit(@i8)", Some(WrongType)),
    ("_ = strconv.Itoa(@i64)", Some(WrongType)),
    ("wg.Add(@s)", Some(WrongType)),
    ("_ = len(@n)", Some(WrongType)),
    ("_ = cap(@s)", Some(WrongType)),
    ("close(@n)", Some(WrongType)),
    ("_ = make(chan int, @s)", Some(WrongType)),
    ("_ = @n[0]", Some(WrongType)),
    ("_ = s[@ok]", Some(WrongType)),
    ("_ = s[:@s]", Some(WrongType)),
    ("_ = @n[1:2]", Some(WrongType)),
];

const MEANINGS: [Row; 32] = [
    // What is no value.
    ("_ = @none", Some(WrongType)),
    ("n = @one", Some(WrongType)),
    ("_ = @int", Some(WrongType)),
    ("_ = n + @int", Some(WrongType)),
    ("_ = @chan int", Some(WrongType)),
    ("_ = @fmt", Some(WrongType)),
    ("_ = @fmt.Println", Some(WrongType)),
    ("_ = @len", Some(WrongType)),
    ("_ = @mu", Some(WrongType)),
    ("_ = @mu.Lock", Some(WrongType)),
    ("fmt.Println(@none)", Some(WrongType)),
    // What is no variable.
    ("@five = 1", Some(WrongType)),
    ("@none = 1", Some(WrongType)),
    ("@int = 1", Some(WrongType)),
    ("@fmt = 1", Some(WrongType)),
    ("@fmt.Println = 1", Some(WrongType)),
    ("@true = ok", Some(WrongType)),
    ("@five++", Some(WrongType)),
    // What is no function.
    ("@n()", Some(WrongType)),
    ("@five()", Some(WrongType)),
    ("@\"a\"()", Some(WrongType)),
    // What is no type.
    ("var x @n", Some(WrongType)),
    ("var x chan @none", Some(WrongType)),
    ("var x @fmt.Println", Some(WrongType)),
    ("var x @sync.Mutex", Some(WrongType)),
    ("_ = make(@int)", Some(WrongType)),
    ("_ = make(@n)", Some(WrongType)),
    // What can't be converted.
    ("_ = @int(s)", Some(WrongType)),
    ("_ = @int(\"a\")", Some(WrongType)),
    ("_ = @string(ok)", Some(WrongType)),
    ("_ = @bool(n)", Some(WrongType)),
    ("_ = 1 + @int(ok)", Some(WrongType)),
];

const ACCEPTED: [Row; 38] = [
    ("n = five; i8 = five; i64 = five; u = five", None),
    ("n = 'a'; r = 97; r = 'a'; u8 = 'a'", None),
    ("n = n + 'a'; r = r + 1", None),
    ("s = s + \"a\" + word", None),
    ("s += \"a\"; s = \"a\" + s", None),
    ("i8 = 1 + i8; u8 = u8 << i64", None),
    ("x := 1 + 'a'; r = x", None),
    ("var x int16; x = x + 128", None),
    ("ok = true == ok", None),
    ("ok = n == m", None),
    ("ok = s < word", None),
    ("ok = ok == (n < 1)", None),
    ("ok = n == 1 == true", None),
    ("ok = c == nil || nil != cc", None),
    ("ok = !ok && n >= 1", None),
    ("c = nil", None),
    ("var x chan string = nil; _ = x", None),
    ("n = -n; n = +n; n = ^n", None),
    ("n = n << u; n = n << i8; n <<= u8; i8 = i8 >> 3", None),
    ("n = 1 << 3", None),
    ("n &^= 3; n %= m; n |= 'a'", None),
    ("n = len(s) + cap(c) + len(c)", None),
    ("c = make(chan int)", None),
    ("c = make(chan int, 3)", None),
    ("c = make(chan int, u8)", None),
    ("cc <- c; c = <-cc; n = <-<-cc", None),
    ("u8 = s[0]; u8 = s[i8]; u8 = s[u]", None),
    ("s = s[1:2]; s = s[:n]; s = s[n:]; s = s[:]", None),
    ("i8 = int8(n); n = int(i8); u = uint(n); n = int(n)", None),
    ("s = string(n); s = string(r); s = string(s)", None),
    ("ok = bool(ok)", None),
    ("x := 'a'; r = x", None),
    ("x := 1; n = x; y := \"a\"; s = y; z := n > 1; ok = z", None),
    ("for i, x := range s { n = i; r = x }", None),
    ("for x := range c { n = x }; for range c {}", None),
    ("switch n { case 1, m: }; switch s { case \"a\": }", None),
    ("switch { case ok, n == 1: }", None),
    ("n = (n); (none()); if (ok) {}", None),
];

#[test]
fn types_of_operands(rt: HostRuntime) -> Result<(), Fail> {
    let wrong = differing(rt.alloc(), MAIN, &OPERATORS)?;
    assert_eq!(rt; wrong.as_str(), "");
    Ok(())
}

#[test]
fn types_of_values(rt: HostRuntime) -> Result<(), Fail> {
    let wrong = differing(rt.alloc(), MAIN, &VALUES)?;
    assert_eq!(rt; wrong.as_str(), "");
    Ok(())
}

#[test]
fn meanings_of_names(rt: HostRuntime) -> Result<(), Fail> {
    let wrong = differing(rt.alloc(), MAIN, &MEANINGS)?;
    assert_eq!(rt; wrong.as_str(), "");
    Ok(())
}

#[test]
fn fitting_types(rt: HostRuntime) -> Result<(), Fail> {
    let wrong = differing(rt.alloc(), MAIN, &ACCEPTED)?;
    assert_eq!(rt; wrong.as_str(), "");
    Ok(())
}
