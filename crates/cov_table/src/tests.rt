ghost use Rattle.std.specs.Prelude.{◌≡◌, IfOk, length, map};
ghost use Rattle.cov_pods.specs.CountedPod.{IsWhole};

use super::*;
use cov_counter::Entry;
use cov_meta::{Meta, MetaFile, MetaFunction, MetaPackage, MetaUnit, Place2};
use cov_outside::{Mode, NoMemory, Sequence, Text};
use cov_pods::{DecodedPod, Pod};
use std::alloc::Global;
use std::test::Fail;

/// A function of `m/main.go`, with the lines and counts of its units.
struct Lines {
    function: &'static [u8],
    units: &'static [(u32, u32)],
}

fn unit(line: u32) -> MetaUnit {
    MetaUnit {
        start: Place2 { line, column: 13 },
        end: Place2 { line, column: 20 },
        statements: 1,
    }
}

fn function(alloc: Global, lines: &Lines) -> Result<(MetaFunction, Sequence<u32>), NoMemory>
    ensures { IfOk result (λ r. length r.1 ≡ length r.0.units) }
{
    let mut units = Sequence::new(alloc);
    let mut counts = Sequence::new(alloc);
    for (line, count) in lines.units {
        units.push(unit(*line))?;
        counts.push(*count)?;
    }
    let function = MetaFunction {
        name: Text::of(alloc, lines.function)?,
        file: Text::of(alloc, b"m/main.go")?,
        literal: false,
        units,
    };
    Ok((function, counts))
}

fn package(
    alloc: Global,
    package_path: &[u8],
    lines: &[Lines],
) -> Result<(MetaPackage, Sequence<Sequence<u32>>), NoMemory>
    ensures { IfOk result (λ r. map length r.1 ≡ map (λ f. length f.units) r.0.functions) }
{
    let mut functions = Sequence::new(alloc);
    let mut by_function = Sequence::new(alloc);
    for lines in lines {
        let (function, counts) = function(alloc, lines)?;
        functions.push(function)?;
        by_function.push(counts)?;
    }
    let package = MetaPackage {
        name: Text::of(alloc, b"main")?,
        path: Text::of(alloc, package_path)?,
        module: Text::of(alloc, b"m")?,
        functions,
    };
    Ok((package, by_function))
}

/// A pod with one package.
fn pod(
    alloc: Global,
    mode: Mode,
    package_path: &[u8],
    functions: &[Lines],
) -> Result<DecodedPod, NoMemory> {
    let (package, by_function) = package(alloc, package_path, functions)?;
    let mut packages = Sequence::new(alloc);
    packages.push(package)?;
    let mut counts = Sequence::new(alloc);
    counts.push(by_function)?;
    Ok(DecodedPod {
        pod: Pod {
            hash: Text::of(alloc, b"")?,
            meta: Text::of(alloc, b"")?,
            counters: Sequence::new(alloc),
        },
        bytes: Sequence::new(alloc),
        file: MetaFile {
            hash: [0; 16],
            meta: Meta { mode, packages },
        },
        counts,
        heads: Sequence::new(alloc),
    })
}

/// A unit as package, function, line and count.
type Shown = (&'static [u8], &'static [u8], u32, u32);

fn is_shown(unit: &Unit<'_>, want: &Shown) -> bool {
    let (package_path, function, line, count) = want;
    unit.package_path == *package_path
        && unit.function == *function
        && unit.start_line == *line
        && unit.count == *count
}

fn shows(alloc: Global, table: &Table, want: &[Shown]) -> Result<bool, NoMemory> {
    let units = table.units(alloc)?;
    for (i, want) in want.iter().enumerate() {
        match units.get(i) {
            Some(unit) if is_shown(&unit, want) => {}
            _ => return Ok(false),
        }
    }
    Ok(units.len() == want.len())
}

/// Pods that are added one after the other, how many of them are refused, and the table then.
struct Case {
    pods: &'static [(Mode, &'static [u8], &'static [Lines])],
    refused: usize,
    want: &'static [Shown],
}

const MAIN: &[Lines] = &[
    Lines {
        function: b"main",
        units: &[(9, 1), (5, 1)],
    },
    Lines {
        function: b"idle",
        units: &[(7, 0)],
    },
];

const MANY: &[Lines] = &[Lines {
    function: b"main",
    units: &[(5, 4294967295)],
}];

const CASES: [Case; 4] = [
    Case {
        pods: &[],
        refused: 0,
        want: &[],
    },
    Case {
        pods: &[
            (Mode::Count, b"m", MAIN),
            (Mode::Count, b"m", MAIN),
            (Mode::Count, b"m", MAIN),
            (Mode::Set, b"m", MAIN),
        ],
        refused: 1,
        want: &[
            (b"m", b"main", 5, 3),
            (b"m", b"idle", 7, 0),
            (b"m", b"main", 9, 3),
        ],
    },
    Case {
        pods: &[
            (Mode::Atomic, b"m", MAIN),
            (Mode::Atomic, b"m", MANY),
            (Mode::Atomic, b"a", MANY),
        ],
        refused: 0,
        want: &[
            (b"a", b"main", 5, 4294967295),
            (b"m", b"main", 5, 4294967295),
            (b"m", b"idle", 7, 0),
            (b"m", b"main", 9, 1),
        ],
    },
    Case {
        pods: &[(Mode::Set, b"m", MANY), (Mode::Set, b"m", MANY)],
        refused: 0,
        want: &[(b"m", b"main", 5, 1)],
    },
];

/// The table of a case's pods, and how many were refused for their mode.
fn table_of(alloc: Global, case: &Case) -> Result<(Table, usize), NoMemory> {
    let mut table = Table::new(alloc);
    let mut refused = 0usize;
    for (mode, package_path, functions) in case.pods {
        let pod = pod(alloc, *mode, package_path, functions)?;
        if table.add_pod(&pod).is_err() {
            refused = refused.saturating_add(1);
        }
    }
    Ok((table, refused))
}

#[test]
fn combines_pods(rt: HostRuntime) -> Result<(), Fail> {
    for (i, case) in CASES.iter().enumerate() {
        let (table, refused) = table_of(rt.alloc(), case)?;
        assert_eq!(rt; refused, case.refused, "refusals of case {i}");
        assert!(rt; shows(rt.alloc(), &table, case.want)?, "units of case {i}");
        let mut whole = Table::new(rt.alloc());
        assert_eq!(rt; whole.merge(&table), Ok(()));
        assert!(rt;
            shows(rt.alloc(), &whole, case.want)?,
            "merged units of case {i}"
        );
    }
    Ok(())
}

/// Tables of pods, and what their operations leave.
struct Pair {
    first: &'static [(Mode, &'static [u8], &'static [Lines])],
    second: &'static [(Mode, &'static [u8], &'static [Lines])],
    refused: bool,
    subtracted: &'static [Shown],
    intersected: &'static [Shown],
}

const MAIN_SHOWN: &[Shown] = &[
    (b"m", b"main", 5, 1),
    (b"m", b"idle", 7, 0),
    (b"m", b"main", 9, 1),
];

const NONE_SHOWN: &[Shown] = &[
    (b"m", b"main", 5, 0),
    (b"m", b"idle", 7, 0),
    (b"m", b"main", 9, 0),
];

const PAIRS: [Pair; 5] = [
    Pair {
        first: &[(Mode::Set, b"m", MAIN)],
        second: &[(Mode::Set, b"m", MAIN)],
        refused: false,
        subtracted: NONE_SHOWN,
        intersected: MAIN_SHOWN,
    },
    Pair {
        first: &[(Mode::Count, b"m", MAIN), (Mode::Count, b"m", MAIN)],
        second: &[(Mode::Count, b"m", MANY), (Mode::Count, b"a", MAIN)],
        refused: false,
        subtracted: &[
            (b"m", b"main", 5, 0),
            (b"m", b"idle", 7, 0),
            (b"m", b"main", 9, 2),
        ],
        intersected: &[
            (b"m", b"main", 5, 2),
            (b"m", b"idle", 7, 0),
            (b"m", b"main", 9, 0),
        ],
    },
    Pair {
        first: &[(Mode::Set, b"m", MAIN)],
        second: &[],
        refused: false,
        subtracted: MAIN_SHOWN,
        intersected: NONE_SHOWN,
    },
    Pair {
        first: &[],
        second: &[(Mode::Set, b"m", MAIN)],
        refused: false,
        subtracted: &[],
        intersected: &[],
    },
    Pair {
        first: &[(Mode::Set, b"m", MAIN)],
        second: &[(Mode::Atomic, b"m", MAIN)],
        refused: true,
        subtracted: MAIN_SHOWN,
        intersected: MAIN_SHOWN,
    },
];

/// The table of some pods.
fn sum_of(
    alloc: Global,
    pods: &[(Mode, &'static [u8], &'static [Lines])],
) -> Result<Table, NoMemory> {
    let mut table = Table::new(alloc);
    for (mode, package_path, functions) in pods {
        let pod = pod(alloc, *mode, package_path, functions)?;
        let _ = table.add_pod(&pod);
    }
    Ok(table)
}

#[test]
fn keeps_counts(rt: HostRuntime) -> Result<(), Fail> {
    let alloc = rt.alloc();
    for (i, pair) in PAIRS.iter().enumerate() {
        let second = sum_of(alloc, pair.second)?;
        let mut table = sum_of(alloc, pair.first)?;
        assert_eq!(rt;
            table.subtract(&second).is_err(),
            pair.refused,
            "subtracting pair {i}"
        );
        assert!(rt;
            shows(alloc, &table, pair.subtracted)?,
            "subtracted units of pair {i}"
        );
        let mut table = sum_of(alloc, pair.first)?;
        assert_eq!(rt;
            table.intersect(&second).is_err(),
            pair.refused,
            "intersecting pair {i}"
        );
        assert!(rt;
            shows(alloc, &table, pair.intersected)?,
            "intersected units of pair {i}"
        );
    }
    Ok(())
}

fn has_lines(units: &[MetaUnit], lines: &[u32]) -> bool {
    units.len() == lines.len()
        && units
            .iter()
            .zip(lines)
            .all(|(unit, line)| unit.start.line == *line)
}

fn has_functions(functions: &[MetaFunction], want: &[(&'static [u8], &'static [u32])]) -> bool {
    functions.len() == want.len()
        && functions.iter().zip(want).all(|(f, (name, lines))| f.name.bytes() == *name
            && has_lines(f.units.as_slice(), lines))
}

/// The functions of a package with the start lines of their units.
type Functions = &'static [(&'static [u8], &'static [u32])];

fn has_packages(packages: &[MetaPackage], want: &[(&'static [u8], Functions)]) -> bool {
    packages.len() == want.len()
        && packages.iter().zip(want).all(|(p, (path, functions))| p.path.bytes() == *path
            && has_functions(p.functions.as_slice(), functions))
}

fn has_entries(entries: &[Entry], want: &[(u32, u32, &'static [u32])]) -> bool {
    entries.len() == want.len()
        && entries.iter().zip(want).all(|(entry, (package, function, counts))| {
            entry.package == *package
                && entry.function == *function
                && entry.counts.as_slice() == *counts
        })
}

#[test]
fn makes_a_pod(rt: HostRuntime) -> Result<(), Fail> {
    let alloc = rt.alloc();
    assert!(rt; Table::new(alloc).to_pod(alloc)?.is_none());
    let table = sum_of(
        alloc,
        &[
            (Mode::Count, b"m", MAIN),
            (Mode::Count, b"m", MANY),
            (Mode::Count, b"a", &[]),
        ],
    )?;
    let pod = table.to_pod(alloc)?.expect(&rt, "a pod");
    let packages: &[(&'static [u8], Functions)] = &[
        (b"a", &[]),
        (b"m", &[(b"main", &[5, 9]), (b"idle", &[7])]),
    ];
    assert!(rt; pod.meta.mode == Mode::Count);
    assert!(rt; has_packages(pod.meta.packages.as_slice(), packages));
    assert!(rt; has_entries(pod.entries.as_slice(), &[(1, 0, &[4294967295, 1])]));
    Ok(())
}
