//! The types of values.
ghost use Rattle.std.specs.Prelude.{◌≡◌};
ghost use Rattle.go_types.specs.Types as spec;

use go_value::Kind;

/// A basic type. `Int` and `Int64` are two types, and so are `Uint` and `Uint64`.
#[derive(Clone, Copy, PartialEq, Eq, Debug)]
pub enum Basic {
    Bool,
    String,
    Int,
    Int8,
    Int16,
    Int32,
    Int64,
    Uint,
    Uint8,
    Uint16,
    Uint32,
    Uint64,
}

impl Basic {
    /// The integers of the type, if it is one of integers.
    pub fn int_kind(self) -> Option<Kind>
        ensures { result ≡ spec.int_kind self }
    {
        match self {
            Basic::Bool | Basic::String => None,
            Basic::Int | Basic::Int64 => Some(Kind::I64),
            Basic::Int8 => Some(Kind::I8),
            Basic::Int16 => Some(Kind::I16),
            Basic::Int32 => Some(Kind::I32),
            Basic::Uint | Basic::Uint64 => Some(Kind::U64),
            Basic::Uint8 => Some(Kind::U8),
            Basic::Uint16 => Some(Kind::U16),
            Basic::Uint32 => Some(Kind::U32),
        }
    }
}

/// A type: `chan` so many times before a basic type.
#[derive(Clone, Copy, PartialEq, Eq, Debug)]
pub struct ValueType {
    pub channels: u32,
    pub base: Basic,
}

impl ValueType {
    pub fn basic(base: Basic) -> ValueType
        ensures { result ≡ spec.basic base }
    {
        ValueType { channels: 0, base }
    }

    pub fn is_channel(self) -> bool
        ensures { result ≡ spec.is_channel self }
    {
        self.channels > 0
    }

    /// The integers of the type, if it is one of integers.
    pub fn int_kind(self) -> Option<Kind>
        ensures { result ≡ spec.kind_of self }
    {
        if self.is_channel() {
            None
        } else {
            self.base.int_kind()
        }
    }

    pub fn is_integer(self) -> bool
        ensures { result ≡ spec.is_integer self }
    {
        self.int_kind().is_some()
    }

    pub fn is(self, base: Basic) -> bool
        ensures { result ≡ spec.is base self }
    {
        self.channels == 0 && self.base == base
    }

    pub fn same(self, other: ValueType) -> bool
        ensures { result ≡ spec.same self other }
    {
        self == other
    }

    pub fn is_text(self) -> bool
        ensures { result ≡ spec.is_text self }
    {
        self.is(Basic::String)
    }

    pub fn is_flag(self) -> bool
        ensures { result ≡ spec.is_flag self }
    {
        self.is(Basic::Bool)
    }

    /// The type of the values that are sent over a channel of this type.
    pub fn element(self) -> ValueType
        ensures { result ≡ spec.element self }
    {
        ValueType {
            channels: self.channels.saturating_sub(1),
            base: self.base,
        }
    }
}
