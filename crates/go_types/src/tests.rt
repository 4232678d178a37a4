//! Tests: tables of operators, literals and ranges, and expressions with their first fault.
use crate::*;
use go_ast::{BinaryOp, Expr, ExprForm, Name, NoMemory, SourceKind, Span, Text};
use go_meaning::Variable;
use sqlite_items::{Boxed, Items};
use std::alloc::Global;
use std::test::Fail;

fn typed(base: Basic) -> OperandKind {
    OperandKind::Typed(ValueType::basic(base))
}

#[test]
fn kinds_of_operators(rt: HostRuntime) {
    let int = OperandKind::Untyped(Untyped::Int);
    let rune = OperandKind::Untyped(Untyped::Rune);
    let text = OperandKind::Untyped(Untyped::String);
    let flag = OperandKind::Untyped(Untyped::Bool);
    let table = [
        (BinaryOp::Add, int, rune, Some(rune)),
        (
            BinaryOp::Add,
            int,
            typed(Basic::Int8),
            Some(typed(Basic::Int8)),
        ),
        (BinaryOp::Add, typed(Basic::Int), typed(Basic::Int64), None),
        (
            BinaryOp::Add,
            text,
            typed(Basic::String),
            Some(typed(Basic::String)),
        ),
        (BinaryOp::Sub, text, text, None),
        (BinaryOp::Less, flag, flag, None),
        (BinaryOp::Equal, flag, typed(Basic::Bool), Some(flag)),
        (BinaryOp::Equal, OperandKind::Nil, OperandKind::Nil, None),
        (BinaryOp::BothOf, int, int, None),
        (
            BinaryOp::Shl,
            typed(Basic::Uint8),
            typed(Basic::Int64),
            Some(typed(Basic::Uint8)),
        ),
        (BinaryOp::Shl, int, text, None),
    ];
    for (op, a, b, kind) in table.iter() {
        assert_eq!(rt; binary_kind(operator_of(*op), *a, *b), *kind);
    }
}

fn number(outcome: Result<Constant, Refusal>) -> Option<i128> {
    match outcome {
        Ok(Constant::Number(number)) => Some(number),
        _ => None,
    }
}

#[test]
fn literals_and_ranges(rt: HostRuntime) {
    assert_eq!(rt; number(int_literal(0, b"0x_fF")), Some(255));
    assert_eq!(rt; number(int_literal(0, b"0b101")), Some(5));
    assert_eq!(rt; number(int_literal(0, b"0o17")), Some(15));
    assert_eq!(rt; number(int_literal(0, b"017")), Some(15));
    assert_eq!(rt; number(int_literal(0, b"1_000")), Some(1000));
    assert_eq!(rt;
        number(int_literal(0, b"170141183460469231731687303715884105727")),
        Some(i128::MAX)
    );
    assert_eq!(rt;
        number(int_literal(0, b"170141183460469231731687303715884105728")),
        None
    );
    let int8 = ValueType::basic(Basic::Int8);
    let uint8 = ValueType::basic(Basic::Uint8);
    assert_eq!(rt; Constant::Number(127).fits(int8), true);
    assert_eq!(rt; Constant::Number(128).fits(int8), false);
    assert_eq!(rt; Constant::Number(-128).fits(int8), true);
    assert_eq!(rt; Constant::Number(-129).fits(int8), false);
    assert_eq!(rt; Constant::Number(255).fits(uint8), true);
    assert_eq!(rt; Constant::Number(-1).fits(uint8), false);
}

fn expr(start: u32, form: ExprForm) -> Expr {
    let span = Span { start, end: start };
    Expr { span, form }
}

fn name(alloc: Global, at: u32, text: &[u8]) -> Result<Expr, NoMemory> {
    let text = Text::of(alloc, text)?;
    Ok(expr(at, ExprForm::Plain(Name { text, at })))
}

fn int(alloc: Global, at: u32, text: &[u8]) -> Result<Expr, NoMemory> {
    Ok(expr(at, ExprForm::Int(Text::of(alloc, text)?)))
}

fn two(alloc: Global, at: u32, op: BinaryOp, a: Expr, b: Expr) -> Result<Expr, NoMemory> {
    let a = Boxed::new(alloc, a)?;
    let b = Boxed::new(alloc, b)?;
    Ok(expr(at, ExprForm::Binary(op, a, b)))
}

/// The first fault of an expression among the predeclared names and a variable `x` of a type.
fn first_fault(alloc: Global, x: Basic, e: &Expr) -> Result<Option<Fault>, Refusal> {
    let mut locals = Lifo::new(alloc);
    locals.push(Binding {
        name: Text::of(alloc, b"x")?,
        meaning: Meaning::Variable(Variable::Slot(0), ValueType::basic(x)),
    })?;
    let names = Names {
        packages: Items::new(alloc),
        own: Lifo::new(alloc),
        signatures: Items::new(alloc),
        imports: Items::new(alloc),
        locals,
    };
    let mut marks = Marks {
        read: Items::new(alloc),
        used: Items::new(alloc),
    };
    match check_value(alloc, &names, &mut marks, e) {
        Ok(_) => Ok(None),
        Err(Refusal::At(fault)) => Ok(Some(fault)),
        Err(Refusal::NoMemory) => Err(Refusal::NoMemory),
    }
}

#[test]
fn first_faults(rt: HostRuntime) -> Result<(), Fail> {
    let alloc = rt.alloc();
    let fault = |offset: u32, kind: SourceKind| Some(Fault { offset, kind });
    let e = name(alloc, 7, b"y")?;
    assert_eq!(rt;
        first_fault(alloc, Basic::Int, &e)?,
        fault(7, SourceKind::Undeclared)
    );
    let e = two(
        alloc,
        0,
        BinaryOp::Shl,
        int(alloc, 0, b"1")?,
        int(alloc, 5, b"127")?,
    )?;
    assert_eq!(rt;
        first_fault(alloc, Basic::Int, &e)?,
        fault(0, SourceKind::ConstRange)
    );
    let e = two(
        alloc,
        0,
        BinaryOp::Shl,
        int(alloc, 0, b"1")?,
        name(alloc, 5, b"x")?,
    )?;
    assert_eq!(rt;
        first_fault(alloc, Basic::Int, &e)?,
        fault(0, SourceKind::UntypedShift)
    );
    let e = two(
        alloc,
        0,
        BinaryOp::Add,
        name(alloc, 0, b"x")?,
        int(alloc, 4, b"128")?,
    )?;
    assert_eq!(rt;
        first_fault(alloc, Basic::Int8, &e)?,
        fault(4, SourceKind::ConstRange)
    );
    assert_eq!(rt; first_fault(alloc, Basic::Int16, &e)?, None);
    assert_eq!(rt;
        first_fault(alloc, Basic::String, &e)?,
        fault(0, SourceKind::WrongType)
    );
    let e = two(
        alloc,
        0,
        BinaryOp::Div,
        name(alloc, 0, b"x")?,
        int(alloc, 4, b"0")?,
    )?;
    assert_eq!(rt;
        first_fault(alloc, Basic::Int, &e)?,
        fault(0, SourceKind::ConstDivide)
    );
    let e = two(
        alloc,
        0,
        BinaryOp::Add,
        name(alloc, 0, b"y")?,
        name(alloc, 4, b"z")?,
    )?;
    assert_eq!(rt;
        first_fault(alloc, Basic::Int, &e)?,
        fault(0, SourceKind::Undeclared)
    );
    let e = two(
        alloc,
        0,
        BinaryOp::Add,
        name(alloc, 0, b"x")?,
        name(alloc, 4, b"int")?,
    )?;
    assert_eq!(rt;
        first_fault(alloc, Basic::Int, &e)?,
        fault(4, SourceKind::WrongType)
    );
    Ok(())
}
