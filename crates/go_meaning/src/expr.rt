//! Expressions of a program.
use crate::value::Value;
use go_value::{IntOp, Kind};
use sqlite_items::{Boxed, Items};

/// A variable: the number of a slot of its function's frame, or of a package variable.
#[derive(Clone, Copy, Debug, PartialEq, Eq)]
pub enum Variable {
    Slot(u64),
    Global(u64),
}

/// What takes a value.
#[derive(Clone, Copy, Debug, PartialEq, Eq)]
pub enum Target {
    /// `_`, which drops it.
    Blank,
    Variable(Variable),
}

/// A comparison.
#[derive(Clone, Copy, Debug, PartialEq, Eq)]
pub enum Relation {
    Equal,
    NotEqual,
    Less,
    LessEqual,
    Greater,
    GreaterEqual,
}

/// An operation: it takes its operands from the stack and leaves its results there.
#[derive(Debug, Drop)]
pub enum Op {
    /// A binary operator on integers.
    Arithmetic(IntOp),
    /// `+` of texts.
    Join,
    Compare(Relation),
    /// `!`
    Not,
    /// The unary `+`.
    Plus,
    /// The unary `-`.
    Minus,
    /// The unary `^`.
    Flip,
    /// The conversion of an integer to a kind of integer.
    Convert(Kind),
    /// The conversion of an integer to a string: the UTF-8 of that code point.
    Spell,
    /// The conversion of a value to its own type.
    Keep,
    /// `s[i]`
    Index,
    /// `s[i:j]`, and which of the bounds are given.
    Cut { low: bool, high: bool },
    Len,
    Cap,
    /// `make`, with the zero value of the channel's values, and whether a size is given.
    Make { zero: Value, sized: bool },
    Close,
    /// `fmt.Println` of that many values.
    Println(u64),
    Panic,
    /// `os.Exit`
    Exit,
    /// `strconv.Itoa`
    Itoa,
    /// `Lock` of the mutex with that number.
    Lock(u64),
    Unlock(u64),
    /// `Add` of the wait group with that number.
    Add(u64),
    Done(u64),
    Wait(u64),
}

/// An expression. Names are variables and parentheses are gone.
#[derive(Debug, Drop)]
pub enum Expr {
    /// A constant, or `nil`.
    Value(Value),
    Variable(Variable),
    /// `&&`
    And(Boxed<Expr>, Boxed<Expr>),
    /// `||`
    Or(Boxed<Expr>, Boxed<Expr>),
    /// An operation and its operands.
    Apply(Op, Items<Expr>),
    /// A receive that gives the value.
    Receive(Boxed<Expr>),
    /// A receive that gives the value and whether it was sent.
    ReceiveOk(Boxed<Expr>),
    /// A call of the function with that number.
    Call(u64, Items<Expr>),
}
