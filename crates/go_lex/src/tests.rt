//! Texts and their tokens, by hand.
use crate::{LexFault, lex};
use go_ast::{LexKind, Token, TokenKind};
use std::alloc::Global;
use std::fmt::Write;
use std::test::Fail;

/// Texts, and their tokens as `shown` writes them.
const TOKENS: [(&[u8], &str); 47] = [
    (b"", ""),
    (b"a+++b", " n=a o25=++ o0=+ n=b o45="),
    (b"a\nb\n", " n=a o45= n=b o45="),
    (b"a // c\n", " n=a o45="),
    (b"a /* b */ c", " n=a n=c o45="),
    (b"a /* b\n */ c", " n=a o45= n=c o45="),
    (b"a /**/ /***/ b", " n=a n=b o45="),
    (b"a// \xc3\xa4", " n=a o45="),
    (
        b"( ) [ ] { } , ; . :",
        " o38=( o39=) o40=[ o41=] o42={ o43=} o44=, o45=; o46=. o47=:",
    ),
    (b"f()\n", " n=f o38=( o39=) o45="),
    (b"x[1]\n{}\n", " n=x o40=[ i=1 o41=] o45= o42={ o43=} o45="),
    (b"x++\ny--\n", " n=x o25=++ o45= n=y o26=-- o45="),
    (b"x +\ny", " n=x o0=+ n=y o45="),
    (
        b"return\nbreak\ncontinue\nfallthrough\n",
        " k19=return o45= k0=break o45= k4=continue o45= k8=fallthrough o45=",
    ),
    (b"if\nfor\nfunc\ncase", " k13=if k9=for k10=func k1=case"),
    (
        b"chan const default defer else go goto",
        " k2=chan k3=const k5=default k6=defer k7=else k11=go k12=goto",
    ),
    (
        b"import interface map package range",
        " k14=import k15=interface k16=map k17=package k18=range",
    ),
    (
        b"select struct switch type var",
        " k20=select k21=struct k22=switch k23=type k24=var",
    ),
    (
        b"iff _ _1 a1 A\xc3\x84 \xe1\x88\xb4",
        " n=iff n=_ n=_1 n=a1 n=A\u{c4} n=\u{1234} o45=",
    ),
    (b"a\xd9\xa3b", " n=a\u{663}b o45="),
    (
        b"&^= &^ && &= & <<= << <= <- < ",
        " o21=&^= o10=&^ o22=&& o16=&= o5=& o19=<<= o8=<< o34=<= o24=<- o28=<",
    ),
    (
        b">>= >> >= > ... := == = ! != ~",
        " o20=>>= o9=>> o35=>= o29=> o37=... o36=:= o27=== o30== o31=! o33=!= o32=~",
    ),
    (
        b"+= -= *= /= %= |= ^= || | ^ - * / %",
        " o11=+= o12=-= o13=*= o14=/= o15=%= o17=|= o18=^= o23=|| o6=| o7=^ o1=- o2=* o3=/ o4=%",
    ),
    (b"....", " o37=... o46=."),
    (b"..", " o46=. o46=."),
    (b"a.b", " n=a o46=. n=b o45="),
    (
        b"0 1 12 1_2 0_1 017 00",
        " i=0 i=1 i=12 i=1_2 i=0_1 i=017 i=00 o45=",
    ),
    (b"0x1f 0XAb_c 0x_1", " i=0x1f i=0XAb_c i=0x_1 o45="),
    (
        b"0o17 0O_7 0b1_01 0B0",
        " i=0o17 i=0O_7 i=0b1_01 i=0B0 o45=",
    ),
    (b"1a 0xeg 1x", " i=1 n=a i=0xe n=g i=1 n=x o45="),
    (b"...5", " o37=... i=5 o45="),
    (
        b"'a' '\xc3\xa4' '\"' ' '",
        " r='a' r='\u{e4}' r='\"' r=' ' o45=",
    ),
    (
        b"'\\n' '\\'' '\\\\' '\\a' '\\v'",
        " r='\\n' r='\\'' r='\\\\' r='\\a' r='\\v' o45=",
    ),
    (
        b"'\\000' '\\377' '\\x4F'",
        " r='\\000' r='\\377' r='\\x4F' o45=",
    ),
    (
        b"'\\u00e4' '\\uD7FF' '\\U0010ffff'",
        " r='\\u00e4' r='\\uD7FF' r='\\U0010ffff' o45=",
    ),
    (
        b"\"\" \"a'b\" \"\\\"\"",
        " t=\"\" t=\"a'b\" t=\"\\\"\" o45=",
    ),
    (
        b"\"\\x41\\101\\u1234\\U00012345\\\\\"",
        " t=\"\\x41\\101\\u1234\\U00012345\\\\\" o45=",
    ),
    (b"\"/* // '\"", " t=\"/* // '\" o45="),
    (b"``", " t=`` o45="),
    (b"`a\\q\"\n\r`\n", " t=`a\\q\"\n\r` o45="),
    (b"a\r\n\tb", " n=a o45= n=b o45="),
    (b"a;\n", " n=a o45=;"),
    (b"a /* \n */ /* \n */", " n=a o45="),
    (b"/", " o3=/"),
    (b"a/b", " n=a o3=/ n=b o45="),
    (b"go func", " k11=go k10=func"),
    (b"x := 1 // one\n}", " n=x o36=:= i=1 o45= o43=} o45="),
];

/// Texts, and the offset and the kind of their first fault.
const FAULTS: [(&[u8], u32, LexKind); 71] = [
    (b"1__0", 0, LexKind::BadNumber),
    (b"\"\\q\"", 1, LexKind::BadEscape),
    (b"x /* y", 2, LexKind::BadComment),
    (b"'ab'", 0, LexKind::BadRune),
    (b"/* /", 0, LexKind::BadComment),
    (b"/*/", 0, LexKind::BadComment),
    (b"08", 0, LexKind::BadNumber),
    (b"0x", 0, LexKind::BadNumber),
    (b"0xg", 0, LexKind::BadNumber),
    (b"0o8", 0, LexKind::BadNumber),
    (b"0b2", 0, LexKind::BadNumber),
    (b"0b", 0, LexKind::BadNumber),
    (b"1_", 0, LexKind::BadNumber),
    (b"0_", 0, LexKind::BadNumber),
    (b"0x1_", 0, LexKind::BadNumber),
    (b"0__1", 0, LexKind::BadNumber),
    (b"1e5", 0, LexKind::BadNumber),
    (b"1E", 0, LexKind::BadNumber),
    (b"0x1p-2", 0, LexKind::BadNumber),
    (b"1i", 0, LexKind::BadNumber),
    (b"1if", 0, LexKind::BadNumber),
    (b"a.5", 1, LexKind::BadNumber),
    (b" .5", 1, LexKind::BadNumber),
    (b"..5", 1, LexKind::BadNumber),
    (b"1.x", 0, LexKind::BadNumber),
    (b"1...", 0, LexKind::BadNumber),
    (b"0x1.8", 0, LexKind::BadNumber),
    (b"01.5", 0, LexKind::BadNumber),
    (b"a 09", 2, LexKind::BadNumber),
    (b"''", 0, LexKind::BadRune),
    (b"'", 0, LexKind::BadRune),
    (b"'a", 0, LexKind::BadRune),
    (b"'a\n'", 0, LexKind::BadRune),
    (b"'\n'", 0, LexKind::BadRune),
    (b"'\\'", 0, LexKind::BadRune),
    (b"'\\n1'", 0, LexKind::BadRune),
    (b"'a\\q'", 0, LexKind::BadRune),
    (b"'\\q'", 1, LexKind::BadEscape),
    (b"'\\qa'", 1, LexKind::BadEscape),
    (b"'\\q", 0, LexKind::BadRune),
    (b"'\\\"'", 1, LexKind::BadEscape),
    (b"'\\400'", 1, LexKind::BadEscape),
    (b"'\\08'", 1, LexKind::BadEscape),
    (b"'\\x4'", 1, LexKind::BadEscape),
    (b"'\\ud800'", 1, LexKind::BadEscape),
    (b"'\\uDFFF'", 1, LexKind::BadEscape),
    (b"'\\U00110000'", 1, LexKind::BadEscape),
    (b"'\xff'", 1, LexKind::BadUtf8),
    (b"'\xff\xff'", 0, LexKind::BadRune),
    (b"'\xffa'", 0, LexKind::BadRune),
    (b"'\x00'", 1, LexKind::BadCharacter),
    (b"'\x00a'", 0, LexKind::BadRune),
    (b"\"a", 0, LexKind::BadText),
    (b"\"a\n\"", 0, LexKind::BadText),
    (b"\"\\\"", 0, LexKind::BadText),
    (b"\"\\q", 0, LexKind::BadText),
    (b"`a", 0, LexKind::BadText),
    (b"\"ab\\'\"", 3, LexKind::BadEscape),
    (b"\"\\n\\U00D800\"", 3, LexKind::BadEscape),
    (b"\"\\q\x00\"", 1, LexKind::BadEscape),
    (b"\"\x00\\q\"", 1, LexKind::BadCharacter),
    (b"\"\xff\\q\"", 1, LexKind::BadUtf8),
    (b"\"\xff", 0, LexKind::BadText),
    (b"a \xff b", 2, LexKind::BadUtf8),
    (b"a \xed\xa0\x80", 2, LexKind::BadUtf8),
    (b"a // \xe2\x82", 5, LexKind::BadUtf8),
    (b"\xef\xbb\xbfa", 0, LexKind::BadCharacter),
    (b"a /* \xef\xbb\xbf */", 5, LexKind::BadCharacter),
    (b"a\x00", 1, LexKind::BadCharacter),
    (b"a # b", 2, LexKind::BadCharacter),
    (b"a \xc2\xa0b ?", 2, LexKind::BadCharacter),
];

/// Each token as the letter of its kind, its number and, behind `=`, its bytes. An inserted semicolon has none.
fn shown(alloc: Global, text: &[u8], tokens: &[Token]) -> Result<String, Fail> {
    let mut out = String::new(alloc);
    for token in tokens {
        match token.kind {
            TokenKind::Name => write!(out, " n")?,
            TokenKind::Int => write!(out, " i")?,
            TokenKind::Rune => write!(out, " r")?,
            TokenKind::Text => write!(out, " t")?,
            TokenKind::Keyword(place) => write!(out, " k{place}")?,
            TokenKind::Operator(place) => write!(out, " o{place}")?,
        }
        let bytes = text
            .get(token.span.start as usize..token.span.end as usize)
            .unwrap_or(b"?");
        write!(out, "={}", str::from_utf8(bytes).unwrap_or("?"))?;
    }
    Ok(out)
}

#[test]
fn texts_have_their_tokens(rt: HostRuntime) -> Result<(), Fail> {
    for (text, want) in TOKENS {
        assert!(rt; text.len() < 1000);
        let found = match lex(rt.alloc(), text) {
            Ok(tokens) => shown(rt.alloc(), text, &tokens)?,
            Err(_) => String::from_str(rt.alloc(), "no tokens")?,
        };
        assert_eq!(rt; found.as_str(), want, "at {text:?}");
    }
    Ok(())
}

#[test]
fn texts_without_tokens_have_their_first_fault(rt: HostRuntime) -> Result<(), Fail> {
    for (text, offset, kind) in FAULTS {
        assert!(rt; text.len() < 1000);
        let want = Err(LexFault::At { offset, kind });
        let found = lex(rt.alloc(), text).map(|tokens| tokens.len());
        assert_eq!(rt; found, want, "at {text:?}");
    }
    Ok(())
}
