//! What a `range` over a text does.
#![tactic(auto, unfolding(go_meaning::specs::Acts::each, go_meaning::specs::Values::first_rune, go_meaning::specs::Operations::on_number, go_meaning::specs::Operations::on_text))]

ghost use Rattle.std.specs.Prelude.{◌≡◌, ◌+◌, ◌<◌, ◌≤◌, ◌^◌, ◌%◌, [], ◌∷◌, IfOk, pos, length};
ghost use Rattle.std.specs.Option.{option_copied};
ghost use Rattle.go_meaning.specs.Acts as acts;
ghost use Rattle.go_meaning.specs.Operations.{on_number, on_text, top};
ghost use Rattle.go_meaning.specs.Values as values;

use go_meaning::{Act, Item, NodeForm, Stack, Target, Value};
use go_value::{Int, Kind};
use std::alloc::{AllocError, Global};

/// A code point and how many bytes it has.
#[derive(Clone, Copy)]
struct Rune {
    code: u32,
    width: usize,
}

// Whether a text begins with the UTF-8 of a code point, which has that many bytes.
#[tactic(auto, using(std::proofs::lemmas::List::take_min))]
fn begins(code: u32, width: usize, s: &[u8]) -> bool
    ensures { result ≡ values.begins code width s.now }
{
    let Some(c) = char::from_u32(code) else {
        return false;
    };
    let mut buffer = [0; 4];
    c.encode_utf8(&mut buffer).as_bytes() == &s[..width.min(s.len())]
}

fn low_bits(byte: u8) -> u32
    ensures { result ≡ byte % 64 }
{
    u32::from(byte) % 64
}

#[tactic(auto, using(crate::proofs::Runes::one_is, crate::proofs::Runes::no_one))]
fn code_of_one(s: &[u8]) -> u32
    ensures { result ≡ values.code_of_one s.now }
{
    if s.is_empty() {
        return 0xFFFD;
    }
    u32::from(s[0])
}

#[tactic(auto, using(crate::proofs::Runes::two_is, crate::proofs::Runes::no_two))]
fn code_of_two(s: &[u8]) -> u32
    ensures { result ≡ values.code_of_two s.now }
{
    if s.len() < 2 {
        return 0xFFFD;
    }
    u32::from(s[0]) % 32 * 64 + low_bits(s[1])
}

#[tactic(auto, using(crate::proofs::Runes::three_is, crate::proofs::Runes::no_three))]
fn code_of_three(s: &[u8]) -> u32
    ensures { result ≡ values.code_of_three s.now }
{
    if s.len() < 3 {
        return 0xFFFD;
    }
    (u32::from(s[0]) % 16 * 64 + low_bits(s[1])) * 64 + low_bits(s[2])
}

#[tactic(auto, using(crate::proofs::Runes::four_is, crate::proofs::Runes::no_four))]
fn code_of_four(s: &[u8]) -> u32
    ensures { result ≡ values.code_of_four s.now }
{
    if s.len() < 4 {
        return 0xFFFD;
    }
    ((u32::from(s[0]) % 8 * 64 + low_bits(s[1])) * 64 + low_bits(s[2])) * 64 + low_bits(s[3])
}

// The character that a text begins with, or U+FFFD of width 1.
fn first_rune(s: &[u8]) -> Rune
    ensures code { result.code ≡ (values.first_rune s.now).code }
    ensures width { result.width ≡ (values.first_rune s.now).width }
{
    let one = code_of_one(s);
    if begins(one, 1, s) {
        return Rune {
            code: one,
            width: 1,
        };
    }
    let two = code_of_two(s);
    if begins(two, 2, s) {
        return Rune {
            code: two,
            width: 2,
        };
    }
    let three = code_of_three(s);
    if begins(three, 3, s) {
        return Rune {
            code: three,
            width: 3,
        };
    }
    let four = code_of_four(s);
    if begins(four, 4, s) {
        return Rune {
            code: four,
            width: 4,
        };
    }
    Rune {
        code: 0xFFFD,
        width: 1,
    }
}

// The targets take the offset and the rune there, and the offset goes on.
#[tactic(auto)]
fn advanced(
    alloc: Global,
    place: (u64, u64),
    targets: (Target, Target),
    body: u64,
    at: Int,
    rest: &[u8],
) -> Result<Act, AllocError>
    ensures { IfOk result (λ a. a ≡ acts.advance place.0 place.1 targets.0 targets.1 body at (values.first_rune rest.now)) }
{
    let first = first_rune(rest);
    let mut items = Stack::new(alloc);
    items.push(Item::Each(place.0, place.1))?;
    items.push(Item::Run(body, 0))?;
    Ok(Act::Advances {
        offset: targets.0,
        at,
        rune: targets.1,
        code: Int::wrapped(Kind::I32, i128::from(first.code)),
        next: Int::wrapped(Kind::I64, i128::from(at.bits) + first.width as i128),
        items,
    })
}

#[tactic(auto, unfolding(go_meaning::specs::Acts::each))]
fn each_of(
    alloc: Global,
    list: u64,
    index: u64,
    form: Option<&NodeForm>,
    at: Int,
    s: &[u8],
) -> Result<Act, AllocError>
    ensures { IfOk result (λ a. a ≡ acts.each list index (option_copied form.entry) at s.now) }
{
    match form {
        Some(
            NodeForm::RangeText {
                offset,
                rune,
                body,
                ..
            },
        ) => {
            if at.bits < s.len() as u64 {
                let rest = &s[at.bits as usize..];
                advanced(alloc, (list, index), (*offset, *rune), *body, at, rest)
            } else {
                Ok(Act::Replaces(2, Stack::new(alloc)))
            }
        }
        _ => Ok(Act::Stuck),
    }
}

/// What a `range` over a text does at an offset, which lies above the text.
pub fn each(
    alloc: Global,
    list: u64,
    index: u64,
    form: Option<&NodeForm>,
    stack: &Stack<Value>,
) -> Result<Act, AllocError>
    ensures { IfOk result (λ a. a ≡ on_number (top 0 stack.now) (λ at. on_text (top 1 stack.now) (acts.each list index (option_copied form.entry) at))) }
{
    match (stack.peek(0), stack.peek(1)) {
        (Some(Value::Number(at)), Some(Value::Text(s))) => {
            each_of(alloc, list, index, form, *at, s.bytes())
        }
        _ => Ok(Act::Stuck),
    }
}
