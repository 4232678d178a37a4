//! Go sources as data: tokens, trees, places, and what can be wrong with a source.
#![tactic(auto)]

mod block;
mod decl;
mod expr;
mod file;
mod kind;
mod lines;
mod module;
mod name;
mod place;
mod span;
#[cfg(test)]
mod tests;
mod text;
mod token;

pub use block::{
    Block, CaseClause, Comm, CommClause, ConstSpec, Other, Stmt, StmtForm, Target, VarSpec,
};
pub use decl::{Decl, Func, Param};
pub use expr::{BinaryOp, Expr, ExprForm, TypeExpr, TypeForm, UnaryOp};
pub use file::{File, Import};
pub use kind::{LexKind, SourceKind};
pub use lines::Lines;
pub use module::{Module, Package, SourceFile};
pub use name::Name;
pub use place::{Place, place_of};
pub use span::Span;
pub use text::{NoMemory, Text};
pub use token::{PieceForm, Token, TokenKind};
