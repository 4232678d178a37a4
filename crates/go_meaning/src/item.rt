//! Items of a control list.
use crate::expr::{Expr, Op, Target};
use crate::node::Deferral;
use crate::stack::Stack;
use go_ast::Text;

/// An item of a control list. Two numbers at first are the place of a statement: the number of its list and its index
/// there.
#[derive(Debug, Drop)]
pub enum Item {
    /// The statement at the place and what follows it.
    Run(u64, u64),
    Eval(Expr),
    /// Drops that many values.
    Drop(u64),
    Assign(Stack<Target>),
    Do(Op),
    And(Expr),
    Or(Expr),
    /// The lists of an `if`.
    Branch(u64, Option<u64>),
    Loop(u64, u64),
    Test(u64, u64),
    Next(u64, u64),
    Each(u64, u64),
    Pull(u64, u64),
    /// The number of a case expression comes last.
    Match(u64, u64, u64),
    Compare(u64, u64, u64),
    Pick(u64, u64),
    Leave,
    Send,
    Recv,
    RecvOk,
    Spawn(u64),
    Defer(Deferral),
    Call(u64),
    /// Returns that many values.
    Return(u64),
    /// A panic with its message.
    Unwind(Text),
}
