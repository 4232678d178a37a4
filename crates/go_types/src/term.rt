//! Terms: values with what computes them, and the types that they take.
ghost use Rattle.std.specs.Prelude.{◌≡◌};
ghost use Rattle.go_types.specs.Checking.{Gives};
ghost use Rattle.go_ast.specs.declared.kind.SourceKind.TheVariants as source;
ghost use Rattle.go_types.specs.Operands as spec;
ghost use Rattle.go_types.specs.declared.fault.Refusal.TheVariants as refusal;

use crate::constant::{Constant, within};
use crate::fault::Refusal;
use crate::kinds::OperandKind;
use crate::operand::{Argument, Operand, Part, Term};
use crate::types::{Basic, ValueType};
use go_ast::SourceKind;
use go_meaning::{Expr, Value};

impl Term {
    pub fn kind(&self) -> OperandKind
        ensures { result ≡ spec.kind_of self.now }
    {
        match self {
            Term::Constant(kind, _) => *kind,
            Term::Nil => OperandKind::Nil,
            Term::Value(of, _) => OperandKind::Typed(*of),
        }
    }

    pub fn is_negative_constant(&self) -> bool
        ensures { result ≡ spec.is_negative_constant self.now }
    {
        match self {
            Term::Constant(_, constant) => constant.is_negative(),
            _ => false,
        }
    }

    pub fn is_zero_constant(&self) -> bool
        ensures { result ≡ spec.is_zero_constant self.now }
    {
        match self {
            Term::Constant(_, constant) => constant.is_zero(),
            _ => false,
        }
    }

    /// The code of the term in a type that it can take, if a constant fits it.
    pub fn fitted(self, at: u32, to: ValueType) -> Result<Expr, Refusal>
        ensures { Gives (spec.fitted at to self) result }
    {
        match self {
            Term::Constant(_, constant) => {
                let constant = within(at, OperandKind::Typed(to), constant)?;
                Ok(Expr::Value(constant.into_value(to)))
            }
            Term::Nil => Ok(Expr::Value(Value::Channel(None))),
            Term::Value(_, code) => Ok(code),
        }
    }
}

impl Argument {
    pub fn kind(&self) -> OperandKind
        ensures { result ≡ spec.kind_at self.now }
    {
        self.term.kind()
    }

    /// The code of the value in the type that its place asks for.
    pub fn into_type(self, to: ValueType) -> Result<Expr, Refusal>
        ensures { Gives (spec.into to self) result }
    {
        if self.kind().is_assignable(to) {
            self.fitted(to)
        } else {
            Err(self.wrong())
        }
    }

    /// The code of the value where nothing asks for a type.
    pub fn into_own_type(self) -> Result<Expr, Refusal>
        ensures { Gives (spec.in_own_type self) result }
    {
        let to = self.kind().own_type();
        self.fitted(to)
    }

    /// The code of the value in a type that it can take.
    pub fn fitted(self, to: ValueType) -> Result<Expr, Refusal>
        ensures { Gives (spec.fitted self.at to self.term) result }
    {
        let Argument { at, term } = self;
        term.fitted(at, to)
    }

    /// The fault that the value has a wrong type.
    pub fn wrong(&self) -> Refusal
        ensures { result ≡ refusal.At (record { offset = self.now.at; kind = source.WrongType }) }
    {
        Refusal::at(self.at, SourceKind::WrongType)
    }
}

impl OperandKind {
    /// The type that the kind has or takes of its own accord. `nil` has none.
    pub fn own_type(self) -> ValueType
        ensures { result ≡ spec.own_type self }
    {
        match self {
            OperandKind::Typed(of) => of,
            OperandKind::Untyped(kind) => kind.default_type(),
            OperandKind::Nil => ValueType::basic(Basic::Int),
        }
    }
}

impl Part {
    /// The part as a value.
    pub fn into_value(self) -> Result<Argument, Refusal>
        ensures { Gives (spec.value self) result }
    {
        let Part { at, operand } = self;
        valued(at, operand)
    }
}

impl Part {
    /// The part, which has to be a value.
    pub fn demanded(self) -> Result<Part, Refusal>
        ensures { Gives (spec.valued_part self) result }
    {
        let Argument { at, term } = self.into_value()?;
        Ok(Part {
            at,
            operand: Operand::Term(term),
        })
    }
}

/// An operand as a value.
pub fn valued(at: u32, operand: Operand) -> Result<Argument, Refusal>
    ensures { Gives (spec.valued at operand) result }
{
    match operand {
        Operand::Term(term) => Ok(Argument { at, term }),
        Operand::Results(_, _) => Err(Refusal::at(at, SourceKind::WrongCount)),
        _ => Err(Refusal::at(at, SourceKind::WrongType)),
    }
}
