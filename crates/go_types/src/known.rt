//! Predeclared names, and those of the standard library.
ghost use Rattle.std.specs.Prelude.{◌≡◌};
ghost use Rattle.go_types.specs.Names as spec;

use crate::constant::Constant;
use crate::kinds::OperandKind;
use crate::names::{Callee, Meaning, Shared};
use crate::types::{Basic, ValueType};

/// What a name means that no package of the module declares.
#[derive(Clone, Copy, PartialEq, Eq, Debug)]
pub enum Known {
    Type(Basic),
    Flag(bool),
    Nil,
    Callee(Callee),
    Shared(Shared),
}

impl Known {
    pub fn meaning(self) -> Meaning
        ensures { result ≡ spec.known self }
    {
        match self {
            Known::Type(base) => Meaning::Type(ValueType::basic(base)),
            Known::Flag(flag) => Meaning::Constant(OperandKind::BOOL, Constant::Flag(flag)),
            Known::Nil => Meaning::Nil,
            Known::Callee(callee) => Meaning::Callee(callee),
            Known::Shared(shared) => Meaning::Shared(shared),
        }
    }
}

/// The predeclared names.
pub static PREDECLARED: [(&[u8], Known); 22] = [
    (b"bool", Known::Type(Basic::Bool)),
    (b"string", Known::Type(Basic::String)),
    (b"int", Known::Type(Basic::Int)),
    (b"int8", Known::Type(Basic::Int8)),
    (b"int16", Known::Type(Basic::Int16)),
    (b"int32", Known::Type(Basic::Int32)),
    (b"int64", Known::Type(Basic::Int64)),
    (b"uint", Known::Type(Basic::Uint)),
    (b"uint8", Known::Type(Basic::Uint8)),
    (b"uint16", Known::Type(Basic::Uint16)),
    (b"uint32", Known::Type(Basic::Uint32)),
    (b"uint64", Known::Type(Basic::Uint64)),
    (b"byte", Known::Type(Basic::Uint8)),
    (b"rune", Known::Type(Basic::Int32)),
    (b"true", Known::Flag(true)),
    (b"false", Known::Flag(false)),
    (b"nil", Known::Nil),
    (b"len", Known::Callee(Callee::Len)),
    (b"cap", Known::Callee(Callee::Cap)),
    (b"make", Known::Callee(Callee::Make)),
    (b"close", Known::Callee(Callee::Close)),
    (b"panic", Known::Callee(Callee::Panic)),
];
