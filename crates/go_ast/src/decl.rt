//! Declarations of a file.
use crate::block::{Block, ConstSpec, VarSpec};
use crate::expr::TypeExpr;
use crate::name::Name;
use crate::span::Span;
use sqlite_items::Items;

/// A declaration of a package.
#[derive(Debug, Drop)]
pub enum Decl {
    Const(Items<ConstSpec>),
    Var(Items<VarSpec>),
    Func(Func),
}

/// A function.
#[derive(Debug, Drop)]
pub struct Func {
    pub name: Name,
    pub params: Items<Param>,
    pub results: Items<TypeExpr>,
    pub body: Block,
    pub span: Span,
}

/// A parameter.
#[derive(Debug, Drop)]
pub struct Param {
    pub name: Name,
    pub kind: TypeExpr,
}
