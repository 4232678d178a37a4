//! Units of trees by hand. An offset is 100 times its line and its column.
mod tree;
mod within;

use crate::{FuncUnits, Unit, cut};
use std::process::Abort;
use std::test::Fail;
use tree::{Clause, Else, Row, Tree, file};
use within::is_within;

/// Functions, and for each that is cut its name and its units: start, end, insertion offset, statements.
struct Case<'a>(
    &'a str,
    &'a [Row<'a>],
    &'a [(&'a [u8], &'a [(u32, u32, u32, u32)])],
);

const CASES: [Case<'static>; 11] = [
    Case(
        "a branch with an else",
        &[Row(
            b"main",
            513,
            1201,
            &[
                Tree::Plain(602, 608),
                Tree::If(
                    702,
                    711,
                    902,
                    &[Tree::Plain(803, 821)],
                    Else::Block(908, 909, 1102, &[Tree::Plain(1003, 1021)]),
                ),
            ],
        )],
        &[(
            b"main",
            &[(513, 711, 514, 2), (711, 903, 712, 1), (908, 1103, 910, 1)],
        )],
    ),
    Case(
        "two empty blocks",
        &[Row(
            b"main",
            313,
            801,
            &[Tree::Block(402, 502, &[]), Tree::Block(602, 702, &[])],
        )],
        &[(
            b"main",
            &[(313, 402, 314, 1), (403, 503, 403, 0), (603, 703, 603, 0)],
        )],
    ),
    Case(
        "an empty, a falling and a default clause",
        &[Row(
            b"main",
            313,
            1001,
            &[Tree::Switch(
                402,
                411,
                902,
                &[
                    Clause(508, &[]),
                    Clause(608, &[Tree::Fallthrough(703, 714)]),
                    Clause(809, &[]),
                ],
            )],
        )],
        &[(
            b"main",
            &[
                (313, 411, 314, 1),
                (509, 509, 509, 0),
                (609, 714, 609, 1),
                (810, 810, 810, 0),
            ],
        )],
    ),
    Case(
        "a chain of else if",
        &[Row(
            b"main",
            313,
            1201,
            &[
                Tree::Plain(402, 408),
                Tree::If(
                    502,
                    512,
                    702,
                    &[Tree::Plain(603, 609)],
                    Else::If(
                        708,
                        &Tree::If(
                            709,
                            719,
                            902,
                            &[Tree::Plain(803, 809)],
                            Else::Block(908, 909, 1102, &[Tree::Plain(1003, 1009)]),
                        ),
                    ),
                ),
            ],
        )],
        &[(
            b"main",
            &[
                (313, 512, 314, 2),
                (512, 703, 513, 1),
                (708, 719, 708, 1),
                (719, 903, 720, 1),
                (908, 1103, 910, 1),
            ],
        )],
    ),
    Case(
        "a panic in the middle",
        &[
            Row(b"f", 310, 401, &[]),
            Row(
                b"main",
                613,
                1001,
                &[
                    Tree::Plain(702, 705),
                    Tree::Panic(802, 812),
                    Tree::Plain(902, 905),
                ],
            ),
        ],
        &[
            (b"f", &[(311, 402, 311, 0)]),
            (b"main", &[(613, 812, 614, 2), (902, 905, 902, 1)]),
        ],
    ),
    Case(
        "an empty else",
        &[Row(
            b"main",
            313,
            701,
            &[Tree::If(402, 407, 502, &[], Else::Block(508, 509, 602, &[]))],
        )],
        &[(
            b"main",
            &[(313, 407, 314, 1), (408, 503, 408, 0), (509, 603, 510, 0)],
        )],
    ),
    Case(
        "functions named _",
        &[
            Row(b"_", 310, 401, &[]),
            Row(b"g", 510, 601, &[]),
            Row(b"_", 710, 801, &[]),
        ],
        &[(b"g", &[(511, 602, 511, 0)])],
    ),
    Case(
        "a switch without clauses",
        &[Row(
            b"main",
            313,
            701,
            &[Tree::Switch(402, 411, 502, &[]), Tree::Plain(602, 605)],
        )],
        &[(b"main", &[(313, 411, 314, 1), (602, 605, 602, 1)])],
    ),
    Case(
        "a label before a loop",
        &[Row(
            b"main",
            313,
            701,
            &[Tree::Label(402, &Tree::For(502, 507, 602, &[]))],
        )],
        &[(b"main", &[(313, 507, 314, 1), (508, 603, 508, 0)])],
    ),
    Case(
        "a clause that begins with a block at its colon",
        &[Row(
            b"main",
            313,
            801,
            &[Tree::Select(
                402,
                409,
                702,
                &[Clause(508, &[Tree::Block(509, 511, &[]), Tree::Plain(602, 605)])],
            )],
        )],
        &[(
            b"main",
            &[(313, 409, 314, 1), (602, 605, 602, 1), (510, 512, 510, 0)],
        )],
    ),
    Case(
        "all clauses before the statements of the first",
        &[Row(
            b"main",
            313,
            1001,
            &[Tree::Switch(
                402,
                411,
                902,
                &[
                    Clause(508, &[Tree::Plain(602, 605), Tree::Block(606, 608, &[])]),
                    Clause(708, &[Tree::Plain(802, 805)]),
                ],
            )],
        )],
        &[(
            b"main",
            &[
                (313, 411, 314, 1),
                (509, 606, 509, 2),
                (709, 805, 709, 1),
                (607, 609, 607, 0),
            ],
        )],
    ),
];

fn expect_units(rt: &impl Abort, case: &str, units: &[Unit], wanted: &[(u32, u32, u32, u32)]) {
    assert_eq!(rt; units.len(), wanted.len(), "{case}");
    for (unit, want) in units.iter().zip(wanted) {
        let got = (unit.start, unit.end, unit.insert, unit.statements);
        assert_eq!(rt; got, *want, "{case}");
    }
}

fn expect_functions(
    rt: &impl Abort,
    case: &str,
    functions: &[FuncUnits],
    wanted: &[(&[u8], &[(u32, u32, u32, u32)])],
) {
    assert_eq!(rt; functions.len(), wanted.len(), "{case}");
    for (f, want) in functions.iter().zip(wanted) {
        assert_eq!(rt; f.name.bytes(), want.0, "{case}");
        expect_units(rt, case, f.units.as_slice(), want.1);
    }
}

#[test]
fn functions_have_their_units(rt: HostRuntime) -> Result<(), Fail> {
    for case in &CASES {
        let tree = file(rt.alloc(), case.1)?;
        assert!(rt; is_within(&tree), "{}", case.0);
        let functions = cut(rt.alloc(), &tree)?;
        expect_functions(&rt, case.0, &functions, case.2);
    }
    Ok(())
}
