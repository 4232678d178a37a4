//! Expressions and types.
use crate::name::Name;
use crate::span::Span;
use crate::text::Text;
use sqlite_items::{Boxed, Items};

/// A type and where it stands.
#[cycle(kind)]
#[derive(Debug, Drop)]
pub struct TypeExpr {
    pub span: Span,
    pub form: TypeForm,
}

#[cycle(kind)]
#[derive(Debug, Drop)]
pub enum TypeForm {
    Plain(Name),
    /// A package and a name in it.
    Member(Name, Name),
    /// A channel of values of a type.
    Chan(Boxed<TypeExpr>),
}

/// An expression and where it stands.
#[cycle(expr)]
#[derive(Debug, Drop)]
pub struct Expr {
    pub span: Span,
    pub form: ExprForm,
}

#[cycle(expr)]
#[derive(Debug, Drop)]
pub enum ExprForm {
    Binary(BinaryOp, Boxed<Expr>, Boxed<Expr>),
    Unary(UnaryOp, Boxed<Expr>),
    Call(Boxed<Expr>, Items<Expr>),
    Index(Boxed<Expr>, Boxed<Expr>),
    /// A text and the bounds of a part of it.
    Cut(Boxed<Expr>, Option<Boxed<Expr>>, Option<Boxed<Expr>>),
    /// The bytes of the literal.
    Int(Text),
    /// The code point.
    Rune(u32),
    /// The bytes that the literal stands for.
    Text(Text),
    Plain(Name),
    /// A package, or a package variable, and a name in it.
    Member(Name, Name),
    /// The type after `chan`.
    Chan(TypeExpr),
    Paren(Boxed<Expr>),
}

#[derive(Clone, Copy, Debug, PartialEq, Eq)]
pub enum BinaryOp {
    Mul,
    Div,
    Rem,
    Shl,
    Shr,
    And,
    AndNot,
    Add,
    Sub,
    Or,
    Xor,
    Equal,
    NotEqual,
    Less,
    LessEqual,
    Greater,
    GreaterEqual,
    BothOf,
    EitherOf,
}

#[derive(Clone, Copy, Debug, PartialEq, Eq)]
pub enum UnaryOp {
    Plus,
    Minus,
    Not,
    Flip,
    Receive,
}
