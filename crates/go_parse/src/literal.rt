//! The values of rune and text literals.
ghost use Rattle.std.specs.Prelude.{◌≡◌, ◌≢◌, ◌≤◌, ◌<◌, ◌++◌, ◌∷◌, [], ◌⊎◌, filter, not, ◌==◌, true, drop, length, encode_utf8, IfOk, OnOk};
ghost use Rattle.std.specs.Char.{IsScalar};
ghost use Rattle.std.specs.Str.{IsUtf8, chars};
ghost use Rattle.go_ast.specs.Literals.{IsRuneBody, IsQuotedBody};
ghost use Rattle.go_ast.specs.Literals.{inner as inside};
ghost use Rattle.go_grammar.specs.Values as spec;
ghost use Rattle.go_parse.specs.Placed.{IsEscape, IsTextLiteral};

use go_ast::Text;
use go_lex::{escape_len, hex_value, inner, is_octal, octal_value};
use std::alloc::{AllocError, Global};
use std::str;

fn simple_value(byte: u8) -> u8
    ensures { result ≡ spec.simple_value byte }
{
    match byte {
        b'a' => 7,
        b'b' => 8,
        b'f' => 12,
        b'n' => 10,
        b'r' => 13,
        b't' => 9,
        b'v' => 11,
        _ => byte,
    }
}

/// The number that an escape stands for, by the byte behind its backslash and the digits behind that.
fn escape_value(byte: u8, digits: &[u8]) -> u32
    requires { IsEscape byte digits.now }
    ensures value { result ≡ spec.escape_value byte digits.now }
    ensures character { (byte ≡ 117) ⊎ (byte ≡ 85) → IsScalar result }
    ensures byte { byte ≢ 117 → byte ≢ 85 → result < 256 }
{
    match byte {
        b'x' => hex_value(digits),
        b'u' | b'U' => hex_value(digits),
        _ if is_octal(byte) => octal_value(byte, digits),
        _ => simple_value(byte) as u32,
    }
}

/// The character that the bytes are.
fn character(bytes: &[u8]) -> u32
    requires { IsUtf8 bytes.now }
    ensures { result ≡ spec.first_of (chars bytes.now) }
{
    match str::from_utf8(bytes).unwrap().chars().next() {
        Some(c) => c as u32,
        None => 0,
    }
}

/// The value of a rune literal.
pub fn rune_value(bytes: &[u8]) -> u32
    requires { IsRuneBody (inside bytes.now) }
    ensures { result ≡ spec.rune_value bytes.now }
{
    let body = inner(bytes);
    if body[0] != b'\\' {
        return character(body);
    }
    escape_value(body[1], &body[2..])
}

fn add_character(value: &mut Vec<u8>, code: u32) -> Result<(), AllocError>
    requires { IsScalar code }
    ensures { OnOk result (value.new.items ≡ value.old.items ++ encode_utf8 code) }
{
    let mut room = [0u8; 4];
    let c = char::from_u32(code).unwrap();
    value.extend_from_slice(c.encode_utf8(&mut room).as_bytes())
}

/// Adds what an escape stands for, by the byte behind its backslash and the digits behind that.
fn add_escape(value: &mut Vec<u8>, byte: u8, digits: &[u8]) -> Result<(), AllocError>
    requires { IsEscape byte digits.now }
    ensures { OnOk result (value.new.items ≡ value.old.items ++ spec.escape_bytes byte digits.now) }
{
    let code = escape_value(byte, digits);
    if byte == b'u' || byte == b'U' {
        return add_character(value, code);
    }
    value.push(code as u8)?;
    Ok(())
}

/// Adds what the bytes begin with, a byte or an escape, and answers how many bytes that has.
fn add_item(value: &mut Vec<u8>, bytes: &[u8]) -> Result<usize, AllocError>
    requires some { 0 < length bytes.now }
    requires quoted { IsQuotedBody bytes.now }
    ensures length { IfOk result (λ len. (0 < len) × (len ≤ length bytes.now)) }
    ensures rest { IfOk result (λ len. IsQuotedBody (drop len bytes.now)) }
    ensures value { IfOk result (λ len. value.new.items ++ spec.unescape_from 0 (drop len bytes.now) ≡ value.old.items ++ spec.unescape_from 0 bytes.now) }
{
    if bytes[0] != b'\\' {
        value.push(bytes[0])?;
        return Ok(1);
    }
    let len = escape_len(bytes[1]);
    add_escape(value, bytes[1], &bytes[2..len])?;
    Ok(len)
}

/// What stands between double quotes, with each escape replaced by what it stands for.
fn unescape(alloc: Global, body: &[u8]) -> Result<Vec<u8>, AllocError>
    requires { IsQuotedBody body.now }
    ensures { IfOk result (λ value. value.items ≡ spec.unescape_from 0 body.now) }
{
    let mut value = Vec::new(alloc);
    let mut rest = body;
    while !rest.is_empty() {
        let len = add_item(&mut value, rest)?;
        let (_, more) = rest.split_at(len);
        rest = more;
    }
    Ok(value)
}

fn without_returns(alloc: Global, body: &[u8]) -> Result<Vec<u8>, AllocError>
    ensures { IfOk result (λ value. value.items ≡ filter (λ b. not (b == 13)) body.now) }
{
    body.iter().copied().filter(|b| *b != b'\r').collect(alloc)
}

fn text_bytes(alloc: Global, bytes: &[u8]) -> Result<Vec<u8>, AllocError>
    requires { IsTextLiteral bytes.now }
    ensures { IfOk result (λ value. value.items ≡ spec.text_value bytes.now) }
{
    if bytes[0] == b'`' {
        return without_returns(alloc, inner(bytes));
    }
    unescape(alloc, inner(bytes))
}

/// The value of a text literal.
pub fn text_value(alloc: Global, bytes: &[u8]) -> Result<Text, AllocError>
    requires { IsTextLiteral bytes.now }
    ensures { IfOk result (λ text. text ≡ spec.text_value bytes.now) }
{
    Text::of(alloc, &text_bytes(alloc, bytes)?)
}
