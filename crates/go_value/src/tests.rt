//! Calls on values that were computed elsewhere.
mod tables;

use crate::{
    ConstFault, Int, IntOp, Kind, OutOfRange, STRING_LIMIT, TextFault, ValueFault, bit_by_bit,
    const_op, convert, cut_text, index, int_op, integers_of_kinds, join_text, low_bits_lost,
    quotient_and_remainder,
};
use std::process::Abort;
use std::test::Fail;
use tables::{CONSTANTS, ENDS, OPERATORS, RESULTS, SINGLE, WRAPPED};

#[test]
fn operators_of_each_kind(rt: HostRuntime) {
    bit_by_bit();
    quotient_and_remainder();
    low_bits_lost();
    for (kind, a, b, results) in RESULTS {
        assert_results(&rt, kind, a, b, results);
    }
    for (kind, op, a, b, result) in SINGLE {
        let answer = int_op(op, Int::wrapped(kind, a), Int::wrapped(kind, b));
        assert_eq!(rt;
            answer.map(Int::value),
            result,
            "{a:?} {op:?} {b:?} of {kind:?}"
        );
    }
}

/// Each operator gives its result of two operands of a kind.
fn assert_results(rt: &impl Abort, kind: Kind, a: i128, b: i128, results: [i128; 11]) {
    for (i, result) in results.iter().enumerate() {
        let op = OPERATORS[i];
        let answer = int_op(op, Int::wrapped(kind, a), Int::wrapped(kind, b));
        assert_eq!(rt;
            answer.map(Int::value),
            Ok(*result),
            "{a:?} {op:?} {b:?} of {kind:?}"
        );
    }
}

#[test]
fn ends_of_each_kind(rt: HostRuntime) {
    integers_of_kinds();
    for (kind, least, greatest) in ENDS {
        let one = Int::wrapped(kind, 1);
        let low = Int::wrapped(kind, least);
        let high = Int::wrapped(kind, greatest);
        assert_eq!(rt; low.value(), least, "{kind:?}");
        assert_eq!(rt; high.value(), greatest, "{kind:?}");
        assert_eq!(rt; int_op(IntOp::Add, high, one), Ok(low), "{kind:?}");
        assert_eq!(rt; int_op(IntOp::Sub, low, one), Ok(high), "{kind:?}");
        assert_eq!(rt;
            Int::wrapped(kind, greatest.wrapping_add(1)),
            low,
            "{kind:?}"
        );
        assert_eq!(rt; Int::wrapped(kind, least.wrapping_sub(1)), high, "{kind:?}");
    }
}

#[test]
fn conversions(rt: HostRuntime) {
    for (kind, whole, left) in WRAPPED {
        let answer = Int::wrapped(kind, whole);
        assert_eq!(rt; answer.value(), left, "{whole:?} in {kind:?}");
        assert_eq!(rt;
            convert(Int::wrapped(Kind::U64, left), kind),
            answer,
            "{left:?} to {kind:?}"
        );
    }
    let negative = Int::wrapped(Kind::I8, -3);
    assert_eq!(rt; convert(negative, Kind::I64).value(), -3);
    assert_eq!(rt; convert(negative, Kind::U16).value(), 65533);
    assert_eq!(rt;
        convert(Int::wrapped(Kind::U8, 253), Kind::I16).value(),
        253
    );
}

#[test]
fn constants(rt: HostRuntime) {
    for (op, a, b, result) in CONSTANTS {
        assert_eq!(rt; const_op(op, a, b), result, "{a:?} {op:?} {b:?}");
    }
}

#[test]
fn texts(rt: HostRuntime) -> Result<(), Fail> {
    let alloc = rt.alloc();
    assert_eq!(rt; cut_text(alloc, b"abc", 1, 2)?.as_slice(), b"b".as_slice());
    assert_eq!(rt;
        cut_text(alloc, b"abc", 0, 3)?.as_slice(),
        b"abc".as_slice()
    );
    assert_eq!(rt; cut_text(alloc, b"abc", 3, 3)?.as_slice(), b"".as_slice());
    for (lo, hi) in [(2, 1), (0, 4), (4, 4), (-1, 2), (0, -1), (-2, -1)] {
        assert_eq!(rt;
            cut_text(alloc, b"abc", lo, hi),
            Err(TextFault::OutOfRange),
            "{lo} to {hi}"
        );
    }
    assert_eq!(rt; index(b"abc", 2), Ok(b'c'));
    assert_eq!(rt; index(b"abc", 3), Err(OutOfRange));
    assert_eq!(rt; index(b"abc", -1), Err(OutOfRange));
    assert_eq!(rt;
        join_text(alloc, b"ab", b"c")?.as_slice(),
        b"abc".as_slice()
    );
    Ok(())
}

#[test]
fn longest_text(rt: HostRuntime) -> Result<(), Fail> {
    let alloc = rt.alloc();
    let half = vec![in alloc; 7u8; STRING_LIMIT / 2]?;
    let whole = join_text(alloc, &half, &half)?;
    assert_eq!(rt; whole.len(), 1_048_576);
    assert_eq!(rt;
        join_text(alloc, &whole, b"").map(|text| text.len()),
        Ok(1_048_576)
    );
    assert_eq!(rt; join_text(alloc, &whole, b"x"), Err(TextFault::StringLimit));
    assert_eq!(rt; join_text(alloc, b"x", &whole), Err(TextFault::StringLimit));
    Ok(())
}

#[test]
fn texts_of_faults(rt: HostRuntime) -> Result<(), Fail> {
    let alloc = rt.alloc();
    let of_values = format!(in alloc;
        "{}, {}",
        ValueFault::DivideByZero,
        ValueFault::NegativeShift
    )?;
    assert_eq!(rt;
        of_values.as_str(),
        "integer divide by zero, negative shift amount"
    );
    let of_constants = format!(in alloc;
        "{}, {}",
        ConstFault::ConstRange,
        ConstFault::ConstDivide
    )?;
    assert_eq!(rt;
        of_constants.as_str(),
        "constant out of range, constant divided by zero"
    );
    Ok(())
}
