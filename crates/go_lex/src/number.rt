//! Numbers.
ghost use Rattle.std.specs.Prelude.{◌≡◌, ◌≤◌, ◌+◌, length, true, take_while};
ghost use Rattle.go_ast.specs.Numbers as number;
ghost use Rattle.go_ast.specs.Numbers.{are_digits as digits, is_int as int, is_int_after_zero as int_after_zero};
ghost use Rattle.go_lex.specs.Bases.{is_digit as digit_of};
ghost use Rattle.go_lex.specs.Scan.{run_after_zero as after_zero, run_len as run, number_len as number_front, ended_len as ended, point_len as behind_point};

fn is_decimal(byte: u8) -> bool
    ensures { result ≡ number.is_decimal byte }
{
    byte >= b'0' && byte <= b'9'
}

/// Whether a byte is an octal digit.
pub fn is_octal(byte: u8) -> bool
    ensures { result ≡ number.is_octal byte }
{
    byte >= b'0' && byte <= b'7'
}

fn is_binary(byte: u8) -> bool
    ensures { result ≡ number.is_binary byte }
{
    byte >= b'0' && byte <= b'1'
}

pub fn is_hex(byte: u8) -> bool
    ensures { result ≡ number.is_hex byte }
{
    is_decimal(byte) || byte >= b'A' && byte <= b'F' || byte >= b'a' && byte <= b'f'
}

fn is_x(byte: u8) -> bool
    ensures { result ≡ number.is_x byte }
{
    byte == b'x' || byte == b'X'
}

fn is_o(byte: u8) -> bool
    ensures { result ≡ number.is_o byte }
{
    byte == b'o' || byte == b'O'
}

fn is_b(byte: u8) -> bool
    ensures { result ≡ number.is_b byte }
{
    byte == b'b' || byte == b'B'
}

fn is_decimal_or_line(byte: u8) -> bool
    ensures { result ≡ number.is_decimal_or_line byte }
{
    is_decimal(byte) || byte == b'_'
}

fn is_hex_or_line(byte: u8) -> bool
    ensures { result ≡ number.is_hex_or_line byte }
{
    is_hex(byte) || byte == b'_'
}

fn is_number_end(byte: u8) -> bool
    ensures { result ≡ number.is_number_end byte }
{
    byte == b'.' || byte == b'e' || byte == b'E' || byte == b'p' || byte == b'P' || byte == b'i'
}

/// The base of a number.
#[derive(Clone, Copy)]
enum Base {
    Binary,
    Octal,
    Decimal,
    Hex,
}

impl Base {
    fn is_digit(self, byte: u8) -> bool
        ensures { result ≡ digit_of self byte }
    {
        match self {
            Base::Binary => is_binary(byte),
            Base::Octal => is_octal(byte),
            Base::Decimal => is_decimal(byte),
            Base::Hex => is_hex(byte),
        }
    }
}

/// How many decimal digits and `_` stand at the front.
fn decimal_len(bytes: &[u8]) -> usize
    ensures value { result ≡ length (take_while number.is_decimal_or_line bytes.now) }
    ensures within { result ≤ length bytes.now }
{
    bytes.iter().take_while(|b| is_decimal_or_line(**b)).count()
}

/// How many hexadecimal digits and `_` stand at the front.
fn hex_len(bytes: &[u8]) -> usize
    ensures value { result ≡ length (take_while number.is_hex_or_line bytes.now) }
    ensures within { result ≤ length bytes.now }
{
    bytes.iter().take_while(|b| is_hex_or_line(**b)).count()
}

/// How long the run is that goes on behind a 0.
#[tactic(auto, unfolding(crate::specs::Scan::run_after_zero))]
fn run_after_zero(bytes: &[u8]) -> usize
    ensures value { result ≡ after_zero bytes.now }
    ensures within { result ≤ length bytes.now }
{
    let [first, rest @ ..] = bytes else {
        return 0;
    };
    if is_x(*first) {
        return 1 + hex_len(rest);
    }
    if is_o(*first) || is_b(*first) || is_decimal_or_line(*first) {
        return 1 + decimal_len(rest);
    }
    0
}

/// How long the run of digits at the front is, or 0 where none begins there.
#[tactic(auto, unfolding(crate::specs::Scan::run_len))]
fn run_len(bytes: &[u8]) -> usize
    ensures value { result ≡ run bytes.now }
    ensures within { result ≤ length bytes.now }
{
    let [first, rest @ ..] = bytes else {
        return 0;
    };
    if *first == b'0' {
        return 1 + run_after_zero(rest);
    }
    if is_decimal(*first) {
        return 1 + decimal_len(rest);
    }
    0
}

/// A run, and the byte behind it where that makes it a number that is no integer.
fn ended_len(len: usize, bytes: &[u8]) -> usize
    requires { len ≤ length bytes.now }
    ensures value { result ≡ ended len bytes.now }
    ensures within { result ≤ length bytes.now }
{
    if len > 0 && len < bytes.len() && is_number_end(bytes[len]) {
        len + 1
    } else {
        len
    }
}

/// How long the number is that goes on behind a point.
fn point_len(bytes: &[u8]) -> usize
    ensures value { result ≡ behind_point bytes.now }
    ensures within { result ≤ 1 + length bytes.now }
{
    match bytes {
        [digit, ..] if is_decimal(*digit) => 2,
        _ => 0,
    }
}

/// How long the number at the front is, be it an integer or not, or 0 where none begins there.
#[tactic(auto, unfolding(crate::specs::Scan::number_len))]
pub fn number_len(bytes: &[u8]) -> usize
    ensures value { result ≡ number_front bytes.now }
    ensures within { result ≤ length bytes.now }
{
    let [first, rest @ ..] = bytes else {
        return 0;
    };
    if *first == b'.' {
        return point_len(rest);
    }
    ended_len(run_len(bytes), bytes)
}

/// Whether the bytes are digits with single `_` between them; the first may be a `_` too.
fn are_digits(base: Base, bytes: &[u8]) -> bool
    ensures { result ≡ digits (digit_of base) true bytes.now }
{
    let mut rest = bytes;
    let mut may = true;
    while let [first, more @ ..] = rest {
        if *first == b'_' {
            if !may {
                return false;
            }
            may = false;
        } else {
            if !base.is_digit(*first) {
                return false;
            }
            may = true;
        }
        rest = more;
    }
    may
}

fn is_int_after_zero(bytes: &[u8]) -> bool
    ensures { result ≡ int_after_zero bytes.now }
{
    let [first, rest @ ..] = bytes else {
        return true;
    };
    if is_x(*first) {
        return !rest.is_empty() && are_digits(Base::Hex, rest);
    }
    if is_o(*first) {
        return !rest.is_empty() && are_digits(Base::Octal, rest);
    }
    if is_b(*first) {
        return !rest.is_empty() && are_digits(Base::Binary, rest);
    }
    are_digits(Base::Octal, bytes)
}

/// Whether the bytes are an integer literal.
pub fn is_int(bytes: &[u8]) -> bool
    ensures { result ≡ int bytes.now }
{
    let [first, rest @ ..] = bytes else {
        return false;
    };
    if *first == b'0' {
        return is_int_after_zero(rest);
    }
    is_decimal(*first) && are_digits(Base::Decimal, rest)
}
