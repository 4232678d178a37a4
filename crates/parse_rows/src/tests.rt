//! Tables of sources.
use go_ast::SourceKind;
use go_parse::{SourceFault, WhichSource, parse};
use std::alloc::{AllocError, Global};
use std::test::Fail;

/// Parts joined, each so many times.
fn joined(alloc: Global, parts: &[(&[u8], usize)]) -> Result<Vec<u8>, AllocError> {
    let mut text = Vec::new(alloc);
    for (part, times) in parts {
        for _ in 0..*times {
            text.extend_from_slice(part)?;
        }
    }
    Ok(text)
}

/// What is wrong with the parts as a source.
fn fault_of(alloc: Global, parts: &[(&[u8], usize)]) -> Result<Option<SourceFault>, AllocError> {
    let text = joined(alloc, parts)?;
    if text.len() > 10_000_000 {
        return Ok(Some(SourceFault::NoMemory));
    }
    Ok(match parse(alloc, &text) {
        Ok(_) => None,
        Err(fault) => Some(fault),
    })
}

/// Where the token stands that no source has there.
fn place_of(fault: Option<SourceFault>) -> Option<usize> {
    match fault {
        Some(
            SourceFault::At {
                offset,
                kind: SourceKind::Unexpected,
            },
        ) => Some(offset as usize),
        _ => None,
    }
}

const FRONT: &[u8] = b"package p\n";

const BODY: &[u8] = b"package p\nfunc f() {\n";

const CLOSE: &[u8] = b"\n}\n";

/// Statements, whose fault stands between the parts.
const STATEMENTS: [(&[u8], &[u8]); 86] = [
    (b"f() ", b"= 1"),
    (b"(a)", b"++"),
    (b"1", b", x = 2"),
    (b"a, f", b"() = 1"),
    (b"a, b", b"++"),
    (b"a.b, c ", b":= 1"),
    (b"a.b ", b":= 1"),
    (b"<-a ", b"= b"),
    (b"a <- b ", b"<- c"),
    (b"a, b", b"\n"),
    (b"a.b", b".c"),
    (b"f()", b".x"),
    (b"x := T", b"{}"),
    (b"chan ", b"(int)"),
    (b"f(", b",)"),
    (b"f(a,", b",)"),
    (b"a[", b"]"),
    (b"a[1:2", b":3]"),
    (b"L: ", b"x++"),
    (b"a.b", b": for {}"),
    (b"x;", b";y"),
    (b"{", b";}"),
    (b"switch x { case 1: ", b"; }"),
    (b"if x := 1 ", b"{}"),
    (b"if ", b"; y {}"),
    (b"if x; ", b"{}"),
    (b"if ", b"{}"),
    (b"for i := 0; i < 3 ", b"{}"),
    (b"for x = ", b"range c {}"),
    (b"for a.b ", b":= range c {}"),
    (b"for x := range c", b"; {}"),
    (b"for x, y = ", b"range c {}"),
    (b"switch ", b"; x {}"),
    (b"switch x := 1 ", b"{}"),
    (b"select { case c", b": }"),
    (b"select { case (<-c)", b": }"),
    (b"select { case <-c + 1", b": }"),
    (b"select { case x = ", b"c: }"),
    (b"select { case x = <-c ", b"+ 1: }"),
    (b"select { case x, y ", b"<- 1: }"),
    (b"select { case x.y, z ", b":= <-c: }"),
    (b"select { case ", b": }"),
    (b"select { case f() ", b"= <-c: }"),
    (b"const a", b", b = 1, 2"),
    (b"const a int", b"\n"),
    (b"const (", b"; a = 1)"),
    (b"var a", b"\n"),
    (b"var a, ", b"= 1"),
    (b"var ", b"1"),
    (b"x ", b"y"),
    (b"x + ", b"}"),
    (b"a ", b"goto L"),
    (b"x++ ", b"+ 1"),
    (b"x += ", b"+= 1"),
    (b"x += 1", b", 2"),
    (b"x, y ", b"+= 1"),
    (b"x := ", b"}"),
    (b"go ", b"}"),
    (b"return 1,", b"}"),
    (b"break ", b"1"),
    (b"continue a", b".b"),
    (b"fallthrough ", b"a"),
    (b"if a {} else ", b"x++"),
    (b"if a {}\n", b"else {}"),
    (b"switch { case ", b": }"),
    (b"switch { ", b"x }"),
    (b"switch { default ", b"1: }"),
    (b"for ", b"else {}"),
    (b"for ;; x ", b"y {}"),
    (b"for ;", b"{}"),
    (b"for ;;x := 1 ", b"; {}"),
    (b"", b"case 1:"),
    (b"L: ", b"if a {}"),
    (b"L: ", b"}"),
    (b"", b"!= 1"),
    (b"x.", b"("),
    (b"x.y++ ", b"z"),
    (b"a == b ", b"= c"),
    (b"a = b ", b"= c"),
    (b"a.b, ", b"1 = 2"),
    (b"f(a ", b"b)"),
    (b"f(a", b"; b)"),
    (b"a[1", b", 2]"),
    (b"a[:", b":]"),
    (b"(a", b", b)"),
    (b"", b"type T int"),
];

#[test]
fn statements_with_a_fault(rt: HostRuntime) -> Result<(), Fail> {
    for (before, after) in STATEMENTS.iter() {
        let have = fault_of(
            rt.alloc(),
            &[(BODY, 1), (*before, 1), (*after, 1), (CLOSE, 1)],
        )?;
        assert_eq!(rt; place_of(have), Some(BODY.len() + before.len()));
    }
    Ok(())
}

/// Declarations, whose fault stands between the parts.
const DECLARATIONS: [(&[u8], &[u8]); 36] = [
    (b"", b"type T int"),
    (b"func f(int", b")"),
    (b"func f(a b, c", b")"),
    (b"func f(a,", b")"),
    (b"func f() (", b")"),
    (b"func f() (a ", b"int)"),
    (b"const a", b", b = 1, 2"),
    (b"import ", b". \"a\""),
    (b"import (", b"x \"a\")"),
    (b"import (\"a\" ", b"\"b\")"),
    (b"import ", b"}"),
    (b"var x = 1\n", b"import \"a\""),
    (b"func ", b"(x int) f() {}"),
    (b"func f", b"[T any]() {}"),
    (b"func f()", b"\n{}"),
    (b"func f() int", b"\n"),
    (b"func f(a ", b"...int) {}"),
    (b"func f(a ", b"*int) {}"),
    (b"func f(a ", b"[]int) {}"),
    (b"func f(a int", b"; b int) {}"),
    (b"func f() {} ", b"x"),
    (b"func f() {", b""),
    (b"", b"x"),
    (b"var x y.z", b".w"),
    (b"var x y.", b"("),
    (b"var x chan ", b"= 1"),
    (b"var x ", b"<-chan int"),
    (b"var (x int ", b"y int)"),
    (b"var x, ", b"1 = 2"),
    (b"const ", b"= 1"),
    (b"const a = ", b"}"),
    (b"const (a = 1", b", b = 2)"),
    (b"var x int = 1,", b"}"),
    (b"", b"{}"),
    (b"", b";"),
    (b"func f(a, b", b") {}"),
];

#[test]
fn declarations_with_a_fault(rt: HostRuntime) -> Result<(), Fail> {
    for (before, after) in DECLARATIONS.iter() {
        let have = fault_of(rt.alloc(), &[(FRONT, 1), (*before, 1), (*after, 1)])?;
        assert_eq!(rt; place_of(have), Some(FRONT.len() + before.len()));
    }
    Ok(())
}

/// Statements without a fault.
const GOOD: [&[u8]; 60] = [
    b"",
    b"select { case <-c + 1 <- 2: }",
    b"for ;; x := 1 {}",
    b"for x, y, z := range c {}",
    b"switch x; {}",
    b"f(a, b,)",
    b"var ()",
    b"const ()",
    b"switch x { default: default: }",
    b"select { default: default: }",
    b"_ = chan int(x)",
    b"for i := 0\ni < 3\ni++ {}",
    b"if x := 1\nx > 0 {}",
    b"x++; y--",
    b"a.b += 1; a.b, c = 1, 2",
    b"a, b := 1, 2",
    b"c <- <-d",
    b"<-c <- 1",
    b"L: for {}",
    b"L: select {}",
    b"L: switch {}",
    b"L:\nfor { break L; continue L }",
    b"return; return 1, f()",
    b"go f(); defer f(x,)",
    b"if a {} else if b {} else {}",
    b"if x := f(); x {} else {}",
    b"if f(); x {}",
    b"if c <- 1; x {}",
    b"if x++; x {}",
    b"for {}; for x {}; for range c {}; for x := range c {}",
    b"for ; ; {}",
    b"for x = 1; ; {}",
    b"for f(); x; f() {}",
    b"for c <- 1; ; c <- 2 {}",
    b"switch {}; switch f() {}; switch x := 1; {}; switch x := 1; x {}",
    b"switch { case a, b: x++; y++\ncase c: fallthrough\ndefault: }",
    b"switch { case a: b case c: d }",
    b"select { case c <- 1: x\ncase x = <-c: y\ncase x, y.z = <-c: case x := <-c: case x, y := <-c: case <-c: }",
    b"select { case f() <- 1: }",
    b"select { case a.b = <-(c): }",
    b"select { case <-<-c: }",
    b"select { case -x <- 1: }",
    b"const a = 1; const a int = 1; const (a = 1; b int = 2); const (a = 1\n)",
    b"var a = 1; var a, b int; var a, b = f(); var a, b chan int = x, y; var (a int; b = 1\n)",
    b"{ { } }",
    b"{ x }",
    b"{ x; }",
    b"a = b + c * d - e << f & g == h && i || !j",
    b"a = -b + ^c - +d",
    b"a = s[1] + s[:] + s[1:] + s[:2] + s[1:2]",
    b"a = (b)(c)[d](e)",
    b"a = f(g)(h)",
    b"a = 'x' + \"y\" + `z` + 0x1f + 0",
    b"a = p.b(c)",
    b"a = chan p.T(x); a = chan chan int(x)",
    b"f(\na,\nb,\n)",
    b"x %= 1; x &^= 1; x <<= 1; x >>= 1; x |= 1; x ^= 1; x &= 1; x /= 1; x *= 1; x -= 1",
    b"x++\n",
    b"if x { return }\nreturn",
    b"break; continue; fallthrough; break L; continue L",
];

#[test]
fn statements_without_a_fault(rt: HostRuntime) -> Result<(), Fail> {
    for text in GOOD.iter() {
        let have = fault_of(rt.alloc(), &[(BODY, 1), (*text, 1), (CLOSE, 1)])?;
        assert_eq!(rt; have, None);
    }
    Ok(())
}

/// Files without a fault.
const FILES: [&[u8]; 14] = [
    b"package p",
    b"package p;",
    b"package p\nimport \"a\"\nimport (\"b\"; \"c\")\nimport ()\nimport (\n\"d\"\n)\n",
    b"package p\nfunc f() {}",
    b"package p\nfunc f(a b,) {}",
    b"package p\nfunc f() (a, b,) {}",
    b"package p\nfunc f(a, b int, c chan d.e) (f, chan g) {}",
    b"package p\nfunc f() int { return 1 }",
    b"package p\nfunc f() chan int {}",
    b"package p\nfunc f() p.T {}",
    b"package p\nfunc f() (int) {}",
    b"package p\nvar ()\nconst ()\n",
    b"package p\nvar x int\nconst y = 1\nfunc f() {}\nvar z = 2",
    b"package _; func _() {}",
];

#[test]
fn files_without_a_fault(rt: HostRuntime) -> Result<(), Fail> {
    for text in FILES.iter() {
        assert_eq!(rt; fault_of(rt.alloc(), &[(*text, 1)])?, None);
    }
    Ok(())
}

/// A front, a part that nests so many times, what stands in the middle, and what closes each part; whether the tree keeps
/// the limit of depth.
const NESTED: [(&[u8], &[u8], usize, &[u8], &[u8], bool); 40] = [
    (b"", b"{", 499, b"", b"}", true),
    (b"", b"{", 500, b"", b"}", false),
    (b"", b"{", 499, b"x++", b"}", true),
    (b"", b"{", 499, b"x.y--", b"}", true),
    (b"", b"{", 499, b"x", b"}", false),
    (b"", b"{", 499, b"x = 1", b"}", false),
    (b"", b"{", 499, b"return", b"}", true),
    (b"", b"{", 499, b"return 1", b"}", false),
    (b"", b"{", 499, b"const ()", b"}", true),
    (b"", b"{", 499, b"const (a = 1)", b"}", false),
    (b"", b"{", 499, b"var x int", b"}", false),
    (b"", b"{", 499, b"switch {}", b"}", true),
    (b"", b"{", 499, b"switch { default: }", b"}", true),
    (b"", b"{", 499, b"switch { case 1: }", b"}", false),
    (b"", b"{", 499, b"select {}", b"}", true),
    (b"", b"{", 499, b"select { case <-c: }", b"}", false),
    (b"", b"{", 499, b"for {}", b"}", false),
    (b"", b"{", 498, b"for {}", b"}", true),
    (b"", b"{", 498, b"if a {}", b"}", true),
    (b"", b"{", 498, b"if x++; a {}", b"}", true),
    (b"", b"{", 498, b"if x; a {}", b"}", true),
    (b"", b"{", 498, b"if -x; a {}", b"}", false),
    (b"", b"{", 498, b"if a {} else {}", b"}", true),
    (b"", b"{", 498, b"if a {} else if b {}", b"}", false),
    (b"", b"{", 497, b"if a {} else if b {}", b"}", true),
    (b"", b"{", 498, b"for x := range c {}", b"}", true),
    (b"x = ", b"- ", 997, b"1", b"", true),
    (b"x = ", b"- ", 998, b"1", b"", false),
    (b"x = ", b"(", 997, b"1", b")", true),
    (b"x = ", b"(", 998, b"1", b")", false),
    (b"x = 1", b"+1", 997, b"", b"", true),
    (b"x = 1", b"+1", 998, b"", b"", false),
    (b"x = f", b"()", 997, b"", b"", true),
    (b"x = f", b"()", 998, b"", b"", false),
    (b"x = f", b"[:]", 997, b"", b"", true),
    (b"x = f", b"[:]", 998, b"", b"", false),
    (b"var x ", b"chan ", 997, b"int", b"", true),
    (b"var x ", b"chan ", 998, b"int", b"", false),
    (b"select { case ", b"<-", 999, b"c", b"", false),
    (b"L: ", b"", 1, b"for {}", b"", true),
];

#[test]
fn trees_keep_their_depth(rt: HostRuntime) -> Result<(), Fail> {
    for (front, part, times, middle, close, good) in NESTED.iter() {
        let have = fault_of(
            rt.alloc(),
            &[
                (BODY, 1),
                (*front, 1),
                (*part, *times),
                (*middle, 1),
                (*close, *times),
                (CLOSE, 1),
            ],
        )?;
        let want = if *good {
            None
        } else {
            Some(SourceFault::Limit(WhichSource::Depth))
        };
        assert_eq!(rt; have, want);
    }
    Ok(())
}

#[test]
fn selects_keep_their_clauses(rt: HostRuntime) -> Result<(), Fail> {
    let open: &[u8] = b"select {\n";
    let clause: &[u8] = b"case <-c:\n";
    let default: &[u8] = b"default:\n";
    let shut: &[u8] = b"}";
    let most = fault_of(
        rt.alloc(),
        &[(BODY, 1), (open, 1), (clause, 1000), (shut, 1), (CLOSE, 1)],
    )?;
    assert_eq!(rt; most, None);
    let more = fault_of(
        rt.alloc(),
        &[
            (BODY, 1),
            (open, 1),
            (clause, 1000),
            (default, 1),
            (shut, 1),
            (CLOSE, 1),
        ],
    )?;
    assert_eq!(rt; more, Some(SourceFault::Limit(WhichSource::SelectClauses)));
    Ok(())
}

/// The tree of a source whose operators bind from the left, and `*` tighter than `-`. The bytes of a name or literal are
/// numbers, and spans are offsets.
const TREE: &str =
    "File { package: Name { text: Text { held: [112] }, at: 8 }, imports: Items { items: [] }, \
decls: Items { items: [Var(Items { items: [VarSpec { names: Items { items: [Name { text: Text { held: [120] }, at: 14 }] }, kind: None, \
values: Items { items: [Expr { span: Span { start: 18, end: 25 }, form: Binary(Sub, \
Boxed { inner: Expr { span: Span { start: 18, end: 21 }, form: Binary(Sub, \
Boxed { inner: Expr { span: Span { start: 18, end: 19 }, form: Int(Text { held: [49] }) } }, \
Boxed { inner: Expr { span: Span { start: 20, end: 21 }, form: Int(Text { held: [50] }) } }) } }, \
Boxed { inner: Expr { span: Span { start: 22, end: 25 }, form: Binary(Mul, \
Boxed { inner: Expr { span: Span { start: 22, end: 23 }, form: Int(Text { held: [51] }) } }, \
Boxed { inner: Expr { span: Span { start: 24, end: 25 }, form: Int(Text { held: [52] }) } }) } }) }] } }] })] }, counts: 0 }";

#[test]
fn a_tree(rt: HostRuntime) -> Result<(), Fail> {
    let found = parse(rt.alloc(), b"package p\nvar x = 1-2-3*4")?;
    let shown = format!(in rt.alloc(); "{:?}", found)?;
    assert_eq!(rt; shown.as_str(), TREE);
    Ok(())
}
