//! Escapes.
ghost use Rattle.std.specs.Prelude.{◌≡◌, ◌≤◌, ◌<◌, ◌+◌, ◌∷◌, length, true, IfSome, MatchOption};
ghost use Rattle.std.specs.List.{list_all};
ghost use Rattle.std.specs.Char.{digit_value};
ghost use Rattle.go_ast.specs.Numbers.{is_hex as hex, is_octal as octal, value_from};
ghost use Rattle.go_ast.specs.Literals.{is_simple as simple, escape_len as len_of_escape, is_meant as meant, IsBadEscape, IsQuotedBody, HasBadEscape};
ghost use Rattle.go_lex.specs.Scan.{escape_front, IsItemAt};
ghost use lib.Utf8.{scalar};

use crate::number::{is_hex, is_octal};

fn is_simple(quote: u8, byte: u8) -> bool
    ensures { result ≡ simple quote byte }
{
    matches!(byte, b'a' | b'b' | b'f' | b'n' | b'r' | b't' | b'v' | b'\\') || byte == quote
}

/// How many bytes the escape has that has this byte behind its backslash.
pub fn escape_len(byte: u8) -> usize
    ensures value { result ≡ len_of_escape byte }
    ensures some { 2 ≤ result }
{
    match byte {
        b'x' => 4,
        b'u' => 6,
        b'U' => 10,
        _ if is_octal(byte) => 4,
        _ => 2,
    }
}

fn are_hex(bytes: &[u8]) -> bool
    ensures { result ≡ list_all hex bytes.now }
{
    bytes.iter().all(|b| is_hex(*b))
}

fn are_octal(bytes: &[u8]) -> bool
    ensures { result ≡ list_all octal bytes.now }
{
    bytes.iter().all(|b| is_octal(*b))
}

/// Whether a byte that escapes and the digits behind it have a meaning.
fn is_meant(quote: u8, byte: u8, digits: &[u8]) -> bool
    requires { 2 + length digits.now ≡ len_of_escape byte }
    ensures { result ≡ meant quote byte digits.now }
{
    match byte {
        b'x' => are_hex(digits),
        b'u' | b'U' => are_hex(digits) && is_scalar(hex_value(digits)),
        _ if is_octal(byte) => are_octal(digits) && octal_value(byte, digits) <= 255,
        _ => is_simple(quote, byte),
    }
}

/// How long the escape at the front is, where one is.
pub fn escape_at(quote: u8, bytes: &[u8]) -> Option<usize>
    ensures value { result ≡ escape_front quote bytes.now }
    ensures within { IfSome result (λ len. (2 ≤ len) × (len ≤ length bytes.now)) }
{
    let [slash, byte, digits @ ..] = bytes else {
        return None;
    };
    let len = escape_len(*byte);
    if *slash != b'\\' || bytes.len() < len || !is_meant(quote, *byte, &digits[..len - 2]) {
        return None;
    }
    Some(len)
}

/// Whether a character has this number.
fn is_scalar(value: u32) -> bool
    ensures { result ≡ scalar value }
{
    char::from_u32(value).is_some()
}

fn hex_digit(byte: u8) -> u32
    requires { hex byte ≡ true }
    ensures value { result ≡ digit_value byte }
    ensures small { result < 16 }
{
    match byte {
        b'0'..=b'9' => byte as u32 - b'0' as u32,
        b'A'..=b'F' => byte as u32 - b'A' as u32 + 10,
        _ => byte as u32 - b'a' as u32 + 10,
    }
}

/// The value of at most eight hexadecimal digits.
pub fn hex_value(digits: &[u8]) -> u32
    requires hex { list_all hex digits.now ≡ true }
    requires few { length digits.now ≤ 8 }
    ensures { result ≡ value_from 16 0 digits.now }
{
    let mut value = 0;
    for byte in digits {
        value = value * 16 + hex_digit(*byte);
    }
    value
}

/// The value of an octal digit and at most two others.
pub fn octal_value(first: u8, digits: &[u8]) -> u32
    requires first { octal first ≡ true }
    requires octal { list_all octal digits.now ≡ true }
    requires few { length digits.now ≤ 2 }
    ensures { result ≡ value_from 8 0 (first ∷ digits.now) }
{
    let mut value = octal_digit(first);
    for byte in digits {
        value = value * 8 + octal_digit(*byte);
    }
    value
}

fn octal_digit(byte: u8) -> u32
    requires { octal byte ≡ true }
    ensures value { result ≡ digit_value byte }
    ensures small { result < 8 }
{
    byte as u32 - b'0' as u32
}

/// How long the item at the front of what stands between double quotes is, or `None` where that is a bad escape.
fn item_len(bytes: &[u8]) -> Option<usize>
    requires { 0 < length bytes.now }
    ensures { MatchOption result (IsBadEscape 34 bytes.now) (IsItemAt 34 bytes.now) }
{
    if bytes[0] == b'\\' {
        escape_at(b'"', bytes)
    } else {
        Some(1)
    }
}

/// The place of the first bad escape in what stands between double quotes, counted from the first of them.
pub fn bad_escape(body: &[u8]) -> Option<usize>
    ensures { MatchOption result (IsQuotedBody body.now) (HasBadEscape body.now) }
{
    let mut rest = body;
    let mut at = 1;
    while !rest.is_empty() {
        let Some(len) = item_len(rest) else {
            return Some(at);
        };
        let (_, more) = rest.split_at(len);
        rest = more;
        at += len;
    }
    None
}
