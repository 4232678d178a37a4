//! The kinds of operands: what is known of a value's type before it is used.
ghost use Rattle.std.specs.Prelude.{◌≡◌};
ghost use Rattle.go_types.specs.Kinds as spec;

use crate::types::{Basic, ValueType};

/// The kind of a constant that has no type yet.
#[derive(Clone, Copy, PartialEq, Eq, Debug)]
pub enum Untyped {
    Bool,
    String,
    Int,
    Rune,
}

/// The kind of an operand.
#[derive(Clone, Copy, PartialEq, Eq, Debug)]
pub enum OperandKind {
    Typed(ValueType),
    Untyped(Untyped),
    /// `nil`
    Nil,
}

impl Untyped {
    /// The type that a constant of the kind takes where nothing asks for another.
    pub fn default_type(self) -> ValueType
        ensures { result ≡ spec.default_type self }
    {
        ValueType::basic(match self {
            Untyped::Bool => Basic::Bool,
            Untyped::String => Basic::String,
            Untyped::Int => Basic::Int,
            Untyped::Rune => Basic::Int32,
        })
    }

    pub fn is_integer(self) -> bool
        ensures { result ≡ spec.is_untyped_integer self }
    {
        matches!(self, Untyped::Int | Untyped::Rune)
    }

    /// Whether a constant of the kind can take a type, if its value fits.
    pub fn takes(self, to: ValueType) -> bool
        ensures { result ≡ spec.takes to self }
    {
        match self {
            Untyped::Bool => to.is_flag(),
            Untyped::String => to.is_text(),
            Untyped::Int | Untyped::Rune => to.is_integer(),
        }
    }

    /// The kind of two constants under one operator.
    pub fn joined(self, other: Untyped) -> Option<Untyped>
        ensures { result ≡ spec.joined self other }
    {
        match (self, other) {
            (Untyped::Bool, Untyped::Bool) => Some(Untyped::Bool),
            (Untyped::String, Untyped::String) => Some(Untyped::String),
            (Untyped::Int, Untyped::Int) => Some(Untyped::Int),
            (Untyped::Int | Untyped::Rune, Untyped::Int | Untyped::Rune) => Some(Untyped::Rune),
            _ => None,
        }
    }

    /// The one kind of a constant of the kind and an operand, if they can have one.
    fn common(self, other: OperandKind) -> Option<OperandKind>
        ensures { result ≡ spec.common (OperandKind.Untyped self) other }
    {
        match other {
            OperandKind::Typed(kind) if self.takes(kind) => Some(OperandKind::Typed(kind)),
            OperandKind::Untyped(kind) => Some(OperandKind::Untyped(self.joined(kind)?)),
            _ => None,
        }
    }
}

impl OperandKind {
    pub const BOOL: OperandKind = OperandKind::Untyped(Untyped::Bool);

    /// Whether an operand of the kind can take a type, if its value fits.
    pub fn is_assignable(self, to: ValueType) -> bool
        ensures { result ≡ spec.is_assignable to self }
    {
        match self {
            OperandKind::Typed(from) => from.same(to),
            OperandKind::Untyped(kind) => kind.takes(to),
            OperandKind::Nil => to.is_channel(),
        }
    }

    /// The one kind of two operands, if they can have one.
    pub fn common(self, other: OperandKind) -> Option<OperandKind>
        ensures { result ≡ spec.common self other }
    {
        match self {
            OperandKind::Typed(kind) if other.is_assignable(kind) => Some(OperandKind::Typed(kind)),
            OperandKind::Typed(_) => None,
            OperandKind::Untyped(kind) => kind.common(other),
            OperandKind::Nil => match other {
                OperandKind::Typed(kind) if kind.is_channel() => Some(OperandKind::Typed(kind)),
                _ => None,
            },
        }
    }

    pub fn is_integer(self) -> bool
        ensures { result ≡ spec.is_integer self }
    {
        match self {
            OperandKind::Typed(kind) => kind.is_integer(),
            OperandKind::Untyped(kind) => kind.is_integer(),
            OperandKind::Nil => false,
        }
    }

    pub fn is_text(self) -> bool
        ensures { result ≡ spec.is_text self }
    {
        match self {
            OperandKind::Typed(kind) => kind.is_text(),
            OperandKind::Untyped(kind) => kind == Untyped::String,
            OperandKind::Nil => false,
        }
    }

    pub fn is_flag(self) -> bool
        ensures { result ≡ spec.is_flag self }
    {
        match self {
            OperandKind::Typed(kind) => kind.is_flag(),
            OperandKind::Untyped(kind) => kind == Untyped::Bool,
            OperandKind::Nil => false,
        }
    }
}
