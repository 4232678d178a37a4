//! Copies of values, operations and expressions.
ghost use Rattle.std.specs.Prelude.{◌≡◌, IfOk};

use crate::expr::{Expr, Op};
use crate::value::Value;
use sqlite_items::{Boxed, Items};
use std::alloc::{AllocError, Global};

/// The same value.
pub fn copy_value(value: &Value) -> Result<Value, AllocError>
    ensures { IfOk result (λ v. v ≡ value.now) }
{
    Ok(match value {
        Value::Flag(b) => Value::Flag(*b),
        Value::Number(i) => Value::Number(*i),
        Value::Text(s) => Value::Text(s.clone()?),
        Value::Channel(number) => Value::Channel(*number),
    })
}

/// The same operation.
pub fn copy_op(op: &Op) -> Result<Op, AllocError>
    ensures { IfOk result (λ o. o ≡ op.now) }
{
    Ok(match op {
        Op::Arithmetic(o) => Op::Arithmetic(*o),
        Op::Join => Op::Join,
        Op::Compare(r) => Op::Compare(*r),
        Op::Not => Op::Not,
        Op::Plus => Op::Plus,
        Op::Minus => Op::Minus,
        Op::Flip => Op::Flip,
        Op::Convert(kind) => Op::Convert(*kind),
        Op::Spell => Op::Spell,
        Op::Keep => Op::Keep,
        Op::Index => Op::Index,
        Op::Cut { low, high } => Op::Cut {
            low: *low,
            high: *high,
        },
        Op::Len => Op::Len,
        Op::Cap => Op::Cap,
        Op::Make { zero, sized } => Op::Make {
            zero: copy_value(zero)?,
            sized: *sized,
        },
        Op::Close => Op::Close,
        Op::Println(n) => Op::Println(*n),
        Op::Panic => Op::Panic,
        Op::Exit => Op::Exit,
        Op::Itoa => Op::Itoa,
        Op::Lock(m) => Op::Lock(*m),
        Op::Unlock(m) => Op::Unlock(*m),
        Op::Add(g) => Op::Add(*g),
        Op::Done(g) => Op::Done(*g),
        Op::Wait(g) => Op::Wait(*g),
    })
}

/// The same expression.
#[cycle(copies)]
pub fn copy_expr(alloc: Global, e: &Expr) -> Result<Expr, AllocError>
    ensures { IfOk result (λ x. x ≡ e.now) }
{
    Ok(match e {
        Expr::Value(v) => Expr::Value(copy_value(v)?),
        Expr::Variable(x) => Expr::Variable(*x),
        Expr::And(a, b) => Expr::And(
            Boxed::new(alloc, copy_expr(alloc, a.get())?)?,
            Boxed::new(alloc, copy_expr(alloc, b.get())?)?,
        ),
        Expr::Or(a, b) => Expr::Or(
            Boxed::new(alloc, copy_expr(alloc, a.get())?)?,
            Boxed::new(alloc, copy_expr(alloc, b.get())?)?,
        ),
        Expr::Apply(op, es) => Expr::Apply(copy_op(op)?, copy_all(alloc, es.as_slice())?),
        Expr::Receive(a) => Expr::Receive(Boxed::new(alloc, copy_expr(alloc, a.get())?)?),
        Expr::ReceiveOk(a) => Expr::ReceiveOk(Boxed::new(alloc, copy_expr(alloc, a.get())?)?),
        Expr::Call(f, es) => Expr::Call(*f, copy_all(alloc, es.as_slice())?),
    })
}

/// The same expressions.
#[cycle(copies)]
pub fn copy_all(alloc: Global, es: &[Expr]) -> Result<Items<Expr>, AllocError>
    ensures { IfOk result (λ xs. xs ≡ es.now) }
{
    let mut all = Items::new(alloc);
    for e in es {
        all.push(copy_expr(alloc, e)?)?;
    }
    Ok(all)
}
