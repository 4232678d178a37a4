//! Constants: which values are constant, and which fit.
use crate::checking::{MAIN, PACKAGE, Row, differing};
use go_ast::SourceKind::{
    ConstDivide, ConstRange, NotConstant, Undeclared, UntypedShift, WrongType,
};
use std::test::Fail;

const NOT_CONSTANT: [Row; 11] = [
    ("const x = @n", Some(NotConstant)),
    ("const x = @one()", Some(NotConstant)),
    ("const x = @five + n", Some(NotConstant)),
    ("const x = @len(c)", Some(NotConstant)),
    ("const x = @len(s)", Some(NotConstant)),
    ("const x = @word[0]", Some(NotConstant)),
    ("const x = @word[1:]", Some(NotConstant)),
    ("const x int = @n", Some(NotConstant)),
    ("const x bool = @c == nil", Some(NotConstant)),
    ("const x = @int(n)", Some(NotConstant)),
    ("const x string = @n", Some(WrongType)),
];

const INITIALISERS: [Row; 20] = [
    (
        "func one() int { return 1 }\nvar x = @one()",
        Some(NotConstant),
    ),
    ("var x = @y\nvar y = 1", Some(NotConstant)),
    ("var y = 1\nvar x int = @y + 1", Some(NotConstant)),
    ("var s = \"abc\"\nvar x = @len(s)", Some(NotConstant)),
    ("var c chan int = @nil", Some(NotConstant)),
    ("var k = 1\nvar c = make(chan int, @k)", Some(NotConstant)),
    ("var x int8 = @128", Some(ConstRange)),
    ("var x int = @\"a\"", Some(WrongType)),
    ("var c chan string = @make(chan int)", Some(WrongType)),
    ("const a = @b\nconst b = 1", Some(Undeclared)),
    ("const a = @a", Some(Undeclared)),
    ("const ( a = 1; b = a + @d; d = 1 )", Some(Undeclared)),
    ("const a string = @1", Some(WrongType)),
    ("const a = 1\nconst b = a + 1\nvar x int8 = b", None),
    ("var x = a\nconst a = 1", None),
    ("var x, y = 1, \"a\"\nvar z = true", None),
    ("var x = len(\"abc\")\nvar y = string(65) + \"b\"", None),
    (
        "var c = make(chan int)\nvar d = make(chan int, 1 + 2)",
        None,
    ),
    ("var ( c chan int; cs, ct chan chan string )", None),
    ("const a = len(\"abc\")\nconst b int8 = @a", Some(WrongType)),
];

const RANGES: [Row; 40] = [
    ("const x int8 = 127; const y int8 = -128", None),
    ("const x int8 = @128", Some(ConstRange)),
    ("const x int8 = @-129", Some(ConstRange)),
    ("const x uint8 = 255; const y byte = 0", None),
    ("const x byte = @256", Some(ConstRange)),
    ("const x uint8 = @-1", Some(ConstRange)),
    ("const x int16 = 32767; const y uint16 = 65535", None),
    ("const x int16 = @32768", Some(ConstRange)),
    ("const x uint16 = @65536", Some(ConstRange)),
    (
        "const x int32 = 2147483647; const y uint32 = 4294967295",
        None,
    ),
    ("const x rune = @2147483648", Some(ConstRange)),
    ("const x uint32 = @4294967296", Some(ConstRange)),
    (
        "const x int64 = 9223372036854775807; const y int = -9223372036854775808",
        None,
    ),
    ("const x int64 = @9223372036854775808", Some(ConstRange)),
    ("const x int = @-9223372036854775809", Some(ConstRange)),
    ("const x uint64 = 18446744073709551615", None),
    ("const x uint = @18446744073709551616", Some(ConstRange)),
    // Within signed 128 bits.
    ("const x = 1 << 126; const y = x >> 126", None),
    ("const x = @1 << 127", Some(ConstRange)),
    ("_ = @1 << 127", Some(ConstRange)),
    ("const x = @1 << 100000", Some(ConstRange)),
    ("const x = 0 << 100000; const y = 1 >> 100000", None),
    (
        "const x = 170141183460469231731687303715884105727; const y = -x - 1",
        None,
    ),
    (
        "const x = @170141183460469231731687303715884105728",
        Some(ConstRange),
    ),
    (
        "const x = -@170141183460469231731687303715884105728",
        Some(ConstRange),
    ),
    (
        "const x = @170141183460469231731687303715884105727 + 1",
        Some(ConstRange),
    ),
    (
        "const x = @-170141183460469231731687303715884105727 - 2",
        Some(ConstRange),
    ),
    ("const x = 1 + @(1 << 100) * (1 << 100)", Some(ConstRange)),
    // Of the operands' type.
    ("_ = @small + small", Some(ConstRange)),
    ("_ = @small * 2", Some(ConstRange)),
    ("_ = small + 27; _ = small - 100", None),
    ("_ = @-int8(-128)", Some(ConstRange)),
    ("_ = i8 + @128", Some(ConstRange)),
    ("_ = @int8(128)", Some(ConstRange)),
    ("_ = int8(127); _ = int16(128)", None),
    ("_ = @uint8(-1)", Some(ConstRange)),
    ("_ = @int8(five * 100)", Some(ConstRange)),
    ("_ = @uint(small - 101)", Some(ConstRange)),
    ("x := 9223372036854775807; n = x", None),
    ("x := @9223372036854775808", Some(ConstRange)),
];

const PLACES: [Row; 27] = [
    ("n = @9223372036854775808", Some(ConstRange)),
    ("i8 = @128", Some(ConstRange)),
    ("i8 += @128", Some(ConstRange)),
    ("u8 = (@-1)", Some(ConstRange)),
    ("u8 = @'\\u0100'", Some(ConstRange)),
    ("r = @2147483648", Some(ConstRange)),
    ("take(@1 << 64, s)", Some(ConstRange)),
    ("c <- @1 << 64", Some(ConstRange)),
    ("switch i8 { case @128: }", Some(ConstRange)),
    ("os.Exit(@9223372036854775808)", Some(ConstRange)),
    ("fmt.Println(@9223372036854775808)", Some(ConstRange)),
    ("_ = s[@-1]", Some(ConstRange)),
    ("_ = s[@-1:]", Some(ConstRange)),
    ("_ = s[:@-1]", Some(ConstRange)),
    ("_ = s[@9223372036854775808]", Some(ConstRange)),
    ("_ = \"abc\"[5]; _ = \"abc\"[2:1]", None),
    ("_ = make(chan int, @-1)", Some(ConstRange)),
    ("_ = make(chan int, @9223372036854775808)", Some(ConstRange)),
    ("_ = n << @-1", Some(ConstRange)),
    ("_ = n >> @-1", Some(ConstRange)),
    ("n <<= @-1", Some(ConstRange)),
    ("const x = 1 << @-1", Some(ConstRange)),
    ("_ = n << @9223372036854775808", Some(ConstRange)),
    ("_ = n << 5000000000", None),
    ("n = 1 << 62; u = 1 << 63", None),
    ("i8 = 127; u8 = '\\xff'; r = 'a' + 1", None),
    ("_ = s[five - 5]; _ = s[0:]", None),
];

const DIVISIONS: [Row; 12] = [
    ("_ = @n / 0", Some(ConstDivide)),
    ("_ = @n % 0", Some(ConstDivide)),
    ("_ = @1 / 0", Some(ConstDivide)),
    ("const x = @1 % 0", Some(ConstDivide)),
    ("_ = 1 + @2 / 0", Some(ConstDivide)),
    ("_ = @n / (five - 5)", Some(ConstDivide)),
    ("_ = @n * n / 0", Some(ConstDivide)),
    ("@n /= 0", Some(ConstDivide)),
    ("@i8 %= five - 5", Some(ConstDivide)),
    ("_ = @s / 0", Some(WrongType)),
    ("_ = 0 / n; _ = 0 % five; n /= m", None),
    ("const x = 7 / 2; const y = -7 % 2", None),
];

const SHIFTS: [Row; 14] = [
    ("_ = @1 << n", Some(UntypedShift)),
    ("_ = @1 >> n", Some(UntypedShift)),
    ("x := @1 << n", Some(UntypedShift)),
    ("i64 = @1 << u", Some(UntypedShift)),
    ("var x int64 = @1 << n", Some(UntypedShift)),
    ("_ = (@1 << n)", Some(UntypedShift)),
    ("_ = n + @1 << u", Some(UntypedShift)),
    ("_ = @'a' << n", Some(UntypedShift)),
    ("_ = @five << n", Some(UntypedShift)),
    ("_ = @(1 + 2) << n", Some(UntypedShift)),
    ("_ = s[@1 << n]", Some(UntypedShift)),
    ("_ = n << (@1 << 3 << n)", Some(UntypedShift)),
    ("_ = int8(1) << n; _ = small >> u", None),
    ("_ = n << five; _ = 1 << five", None),
];

#[test]
fn values_that_are_not_constant(rt: HostRuntime) -> Result<(), Fail> {
    let wrong = differing(rt.alloc(), MAIN, &NOT_CONSTANT)?;
    assert_eq!(rt; wrong.as_str(), "");
    Ok(())
}

#[test]
fn initialisers_of_packages(rt: HostRuntime) -> Result<(), Fail> {
    let wrong = differing(rt.alloc(), PACKAGE, &INITIALISERS)?;
    assert_eq!(rt; wrong.as_str(), "");
    Ok(())
}

#[test]
fn ranges_of_constants(rt: HostRuntime) -> Result<(), Fail> {
    let wrong = differing(rt.alloc(), MAIN, &RANGES)?;
    assert_eq!(rt; wrong.as_str(), "");
    Ok(())
}

#[test]
fn ranges_of_places(rt: HostRuntime) -> Result<(), Fail> {
    let wrong = differing(rt.alloc(), MAIN, &PLACES)?;
    assert_eq!(rt; wrong.as_str(), "");
    Ok(())
}

#[test]
fn divisions_by_zero(rt: HostRuntime) -> Result<(), Fail> {
    let wrong = differing(rt.alloc(), MAIN, &DIVISIONS)?;
    assert_eq!(rt; wrong.as_str(), "");
    Ok(())
}

#[test]
fn shifts_without_type(rt: HostRuntime) -> Result<(), Fail> {
    let wrong = differing(rt.alloc(), MAIN, &SHIFTS)?;
    assert_eq!(rt; wrong.as_str(), "");
    Ok(())
}
