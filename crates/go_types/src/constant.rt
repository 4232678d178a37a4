//! Constants.
ghost use Rattle.std.specs.Prelude.{◌≡◌, ◌++◌, IfOk};
ghost use Rattle.go_value.specs.Kinds.{least, greatest};
ghost use Rattle.go_types.specs.Checking.{Gives};
ghost use Rattle.go_types.specs.Constants as spec;
ghost use Rattle.go_types.specs.declared.constant.Constant.TheVariants as constant;

use crate::conversion::Conversion;
use crate::fault::{Refusal, const_kind};
use crate::kinds::OperandKind;
use crate::operator::Operator;
use crate::types::ValueType;
use go_ast::{NoMemory, SourceKind, Text, UnaryOp};
use go_meaning::{Relation, Value};
use go_value::{Int, IntOp, Kind, const_op};
use std::alloc::Global;
use std::cmp::Ordering;

/// The value of a constant.
#[derive(Debug, Drop)]
pub enum Constant {
    Flag(bool),
    Number(i128),
    Text(Text),
}

impl Constant {
    pub fn copy(&self) -> Result<Constant, NoMemory>
        ensures { IfOk result (λ c. c ≡ self.now) }
    {
        match self {
            Constant::Flag(flag) => Ok(Constant::Flag(*flag)),
            Constant::Number(number) => Ok(Constant::Number(*number)),
            Constant::Text(text) => Ok(Constant::Text(text.clone()?)),
        }
    }

    pub fn is_negative(&self) -> bool
        ensures { result ≡ spec.is_negative self.now }
    {
        match self {
            Constant::Number(number) => *number < 0,
            _ => false,
        }
    }

    pub fn is_zero(&self) -> bool
        ensures { result ≡ spec.is_zero self.now }
    {
        match self {
            Constant::Number(number) => *number == 0,
            _ => false,
        }
    }

    /// Whether the constant is a value of a type of its sort.
    pub fn fits(&self, to: ValueType) -> bool
        ensures { result ≡ spec.fits to self.now }
    {
        match self {
            Constant::Number(number) => match to.int_kind() {
                Some(kind) => is_of_kind(kind, *number),
                None => false,
            },
            _ => true,
        }
    }

    /// The value of the constant in a type that it fits.
    pub fn into_value(self, of: ValueType) -> Value
        ensures { result ≡ spec.value_in of self }
    {
        match self {
            Constant::Flag(flag) => Value::Flag(flag),
            Constant::Number(number) => {
                Value::Number(Int::wrapped(of.int_kind().unwrap_or(Kind::I64), number))
            }
            Constant::Text(text) => Value::Text(text),
        }
    }
}

/// Whether a number is one of the integers of a kind.
fn is_of_kind(kind: Kind, number: i128) -> bool
    ensures { result ≡ spec.is_of_kind kind number }
{
    least(kind) <= number && number <= greatest(kind)
}

/// The least integer of a kind.
fn least(kind: Kind) -> i128
    ensures { result ≡ least kind }
{
    match kind {
        Kind::I8 => i128::from(i8::MIN),
        Kind::I16 => i128::from(i16::MIN),
        Kind::I32 => i128::from(i32::MIN),
        Kind::I64 => i128::from(i64::MIN),
        Kind::U8 | Kind::U16 | Kind::U32 | Kind::U64 => 0,
    }
}

/// The greatest integer of a kind.
fn greatest(kind: Kind) -> i128
    ensures { result ≡ greatest kind }
{
    match kind {
        Kind::I8 => i128::from(i8::MAX),
        Kind::I16 => i128::from(i16::MAX),
        Kind::I32 => i128::from(i32::MAX),
        Kind::I64 => i128::from(i64::MAX),
        Kind::U8 => i128::from(u8::MAX),
        Kind::U16 => i128::from(u16::MAX),
        Kind::U32 => i128::from(u32::MAX),
        Kind::U64 => i128::from(u64::MAX),
    }
}

/// Whether a relation holds between two values of which the first stands so to the second.
fn holds(relation: Relation, order: Ordering) -> bool
    ensures { result ≡ spec.holds relation order }
{
    match relation {
        Relation::Equal => order == Ordering::Equal,
        Relation::NotEqual => order != Ordering::Equal,
        Relation::Less => order == Ordering::Less,
        Relation::LessEqual => order != Ordering::Greater,
        Relation::Greater => order == Ordering::Greater,
        Relation::GreaterEqual => order != Ordering::Less,
    }
}

/// The two texts, one behind the other.
fn join(alloc: Global, a: &Text, b: &Text) -> Result<Text, NoMemory>
    ensures { IfOk result (λ t. t ≡ a.now ++ b.now) }
{
    let mut bytes = Vec::from_slice(alloc, a.bytes())?;
    bytes.extend_from_slice(b.bytes())?;
    Text::of(alloc, &bytes)
}

fn arithmetic(at: u32, op: IntOp, a: i128, b: i128) -> Result<Constant, Refusal>
    ensures { Gives (spec.arithmetic at op a b) result }
{
    match const_op(op, a, b) {
        Ok(number) => Ok(Constant::Number(number)),
        Err(fault) => Err(Refusal::at(at, const_kind(fault))),
    }
}

/// A binary operator on two constants of one sort, at its offset.
pub fn binary_constant(
    alloc: Global,
    at: u32,
    op: Operator,
    a: &Constant,
    b: &Constant,
) -> Result<Constant, Refusal>
    ensures { Gives (spec.binary_constant at op a.now b.now) result }
{
    match (a, b) {
        (Constant::Number(a), Constant::Number(b)) => on_numbers(at, op, *a, *b),
        (Constant::Text(a), Constant::Text(b)) => on_texts(alloc, at, op, a, b),
        (Constant::Flag(a), Constant::Flag(b)) => on_flags(at, op, *a, *b),
        _ => Err(Refusal::at(at, SourceKind::WrongType)),
    }
}

fn on_numbers(at: u32, op: Operator, a: i128, b: i128) -> Result<Constant, Refusal>
    ensures { Gives (spec.on_numbers at op a b) result }
{
    match op {
        Operator::Arithmetic(op) => arithmetic(at, op, a, b),
        Operator::Compare(relation) => Ok(Constant::Flag(holds(relation, a.cmp(&b)))),
        _ => Err(Refusal::at(at, SourceKind::WrongType)),
    }
}

fn on_texts(alloc: Global, at: u32, op: Operator, a: &Text, b: &Text) -> Result<Constant, Refusal>
    ensures { Gives (spec.on_texts at op a.now b.now) result }
{
    match op {
        Operator::Arithmetic(IntOp::Add) => Ok(Constant::Text(join(alloc, a, b)?)),
        Operator::Compare(relation) => Ok(Constant::Flag(holds(relation, a.cmp(b)))),
        _ => Err(Refusal::at(at, SourceKind::WrongType)),
    }
}

fn on_flags(at: u32, op: Operator, a: bool, b: bool) -> Result<Constant, Refusal>
    ensures { Gives (spec.on_flags at op a b) result }
{
    match op {
        Operator::Compare(Relation::Equal) => Ok(Constant::Flag(a == b)),
        Operator::Compare(Relation::NotEqual) => Ok(Constant::Flag(a != b)),
        Operator::Both => Ok(Constant::Flag(a && b)),
        Operator::Either => Ok(Constant::Flag(a || b)),
        _ => Err(Refusal::at(at, SourceKind::WrongType)),
    }
}

/// A number whose bits, in a kind, are all ones.
fn all_ones(kind: OperandKind) -> i128
    ensures { result ≡ spec.all_ones kind }
{
    match kind {
        OperandKind::Typed(kind) => match kind.int_kind() {
            Some(kind) if !kind.is_signed() => i128::from(kind.mask()),
            _ => -1,
        },
        _ => -1,
    }
}

/// A unary operator on a constant of a kind, at its offset.
pub fn unary_constant(
    at: u32,
    op: UnaryOp,
    kind: OperandKind,
    a: Constant,
) -> Result<Constant, Refusal>
    ensures { Gives (spec.unary_constant at op kind a) result }
{
    match (op, a) {
        (UnaryOp::Plus, Constant::Number(a)) => Ok(Constant::Number(a)),
        (UnaryOp::Minus, Constant::Number(a)) => arithmetic(at, IntOp::Sub, 0, a),
        (UnaryOp::Flip, Constant::Number(a)) => arithmetic(at, IntOp::Xor, all_ones(kind), a),
        (UnaryOp::Not, Constant::Flag(a)) => Ok(Constant::Flag(!a)),
        _ => Err(Refusal::at(at, SourceKind::WrongType)),
    }
}

/// A constant of a kind, which has to fit its type if it has one.
pub fn within(at: u32, kind: OperandKind, a: Constant) -> Result<Constant, Refusal>
    ensures { Gives (spec.within at kind a) result }
{
    match kind {
        OperandKind::Typed(to) if !a.fits(to) => Err(Refusal::at(at, SourceKind::ConstRange)),
        _ => Ok(a),
    }
}

/// The UTF-8 of a code point, or of U+FFFD where a number is none.
fn spelled(alloc: Global, number: i128) -> Result<Text, NoMemory>
    ensures { IfOk result (λ t. t ≡ spec.spelled number) }
{
    let code = u32::try_from(number).unwrap_or(0xFFFD);
    let mut text = String::new(alloc);
    text.push(char::from_u32(code).unwrap_or('\u{FFFD}'))?;
    Text::of(alloc, text.as_bytes())
}

/// The conversion of a constant to a type, at its offset.
pub fn converted(
    alloc: Global,
    at: u32,
    how: Conversion,
    to: ValueType,
    a: Constant,
) -> Result<Constant, Refusal>
    ensures { Gives (spec.converted at how to a) result }
{
    match (how, a) {
        (Conversion::Spell, Constant::Number(a)) => Ok(Constant::Text(spelled(alloc, a)?)),
        (_, a) => within(at, OperandKind::Typed(to), a),
    }
}
