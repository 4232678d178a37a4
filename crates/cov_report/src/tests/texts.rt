//! The texts of the five reports.
use super::filter_of;
use super::pods::{ShownFunction, ShownPackage, pod};
use crate::{Filter, debugdump, func_report, percent, pkglist, textfmt};
use cov_outside::NoMemory;
use cov_pods::DecodedPod;
use cov_table::Table;
use std::alloc::Global;
use std::test::Fail;

/// Pods, patterns, and what the reports are then.
struct Case {
    pods: &'static [&'static [ShownPackage]],
    patterns: &'static [&'static [u8]],
    profile: &'static [u8],
    percent: &'static [u8],
    functions: &'static [u8],
    list: &'static [u8],
    dump: &'static [u8],
}

/// A package of one function with one branch taken.
const BRANCH: &[ShownPackage] = &[ShownPackage {
    path: b"example.com/m",
    module: b"example.com/m",
    functions: &[ShownFunction {
        name: b"main",
        file: b"example.com/m/main.go",
        literal: false,
        units: &[
            (9, 8, 11, 3, 1, 0),
            (5, 13, 7, 11, 2, 1),
            (7, 11, 9, 3, 1, 1),
        ],
    }],
}];

/// Functions whose units stand between those of others, or that have the name of another.
const MIXED: &[ShownPackage] = &[
    ShownPackage {
        path: b"b",
        module: b"m",
        functions: &[ShownFunction {
            name: b"only",
            file: b"b/b.go",
            literal: false,
            units: &[(1, 1, 2, 2, 3, 1)],
        }],
    },
    ShownPackage {
        path: b"a",
        module: b"m",
        functions: &[
            ShownFunction {
                name: b"f",
                file: b"a/a.go",
                literal: false,
                units: &[(9, 1, 10, 2, 1, 0), (5, 1, 6, 2, 2, 1)],
            },
            ShownFunction {
                name: b"g",
                file: b"a/a.go",
                literal: false,
                units: &[(7, 1, 8, 2, 0, 1)],
            },
            ShownFunction {
                name: b"f",
                file: b"a/a.go",
                literal: true,
                units: &[(6, 1, 6, 9, 15, 0), (11, 1, 12, 2, 1, 1)],
            },
            ShownFunction {
                name: b"h",
                file: b"a/c.go",
                literal: false,
                units: &[(1, 1, 2, 2, 5, 0)],
            },
            ShownFunction {
                name: b"f",
                file: b"a/b.go",
                literal: false,
                units: &[(1, 1, 2, 2, 5, 1)],
            },
        ],
    },
];

const NOTHING: Case = Case {
    pods: &[],
    patterns: &[],
    profile: b"",
    percent: b"",
    functions: b"total\t(statements)\t0.0%\n",
    list: b"",
    dump: b"",
};

const WHOLE: Case = Case {
    pods: &[BRANCH],
    patterns: &[],
    profile: b"mode: set\nexample.com/m/main.go:5.13,7.11 2 1\nexample.com/m/main.go:7.11,9.3 1 1\nexample.com/m/main.go:9.8,11.3 1 0\n",
    percent: b"\texample.com/m\t\tcoverage: 75.0% of statements\n",
    functions: b"example.com/m/main.go:5:\tmain\t75.0%\ntotal\t(statements)\t75.0%\n",
    list: b"example.com/m\n",
    dump: b"pod h mode set\npackage 0 main example.com/m example.com/m\nfunction 0 main example.com/m/main.go 0\n\
unit 0 9.8,11.3 1 0\nunit 1 5.13,7.11 2 1\nunit 2 7.11,9.3 1 1\n",
};

const OTHERS: Case = Case {
    pods: &[BRANCH, BRANCH],
    patterns: &[b"example.com", b"example.com/m/m/..."],
    profile: b"mode: set\n",
    percent: b"",
    functions: b"total\t(statements)\t0.0%\n",
    list: b"",
    dump: b"pod h mode set\npod h mode set\n",
};

const ALL_FUNCTIONS: Case = Case {
    pods: &[MIXED, MIXED],
    patterns: &[],
    profile: b"mode: set\na/a.go:5.1,6.2 2 1\na/a.go:6.1,6.9 15 0\na/a.go:7.1,8.2 0 1\na/a.go:9.1,10.2 1 0\n\
a/a.go:11.1,12.2 1 1\na/b.go:1.1,2.2 5 1\na/c.go:1.1,2.2 5 0\nb/b.go:1.1,2.2 3 1\n",
    percent: b"\ta\t\tcoverage: 27.6% of statements\n\tb\t\tcoverage: 100.0% of statements\n",
    functions: b"a/a.go:5:\tf\t66.7%\na/a.go:6:\tf\t6.3%\na/a.go:7:\tg\t0.0%\na/b.go:1:\tf\t100.0%\na/c.go:1:\th\t0.0%\n\
b/b.go:1:\tonly\t100.0%\ntotal\t(statements)\t34.4%\n",
    list: b"a\nb\n",
    dump: b"pod h mode set\npackage 0 main b m\nfunction 0 only b/b.go 0\nunit 0 1.1,2.2 3 1\n\
package 1 main a m\nfunction 0 f a/a.go 0\nunit 0 9.1,10.2 1 0\nunit 1 5.1,6.2 2 1\nfunction 1 g a/a.go 0\nunit 0 7.1,8.2 0 1\n\
function 2 f a/a.go 1\nunit 0 6.1,6.9 15 0\nunit 1 11.1,12.2 1 1\nfunction 3 h a/c.go 0\nunit 0 1.1,2.2 5 0\n\
function 4 f a/b.go 0\nunit 0 1.1,2.2 5 1\n\
pod h mode set\npackage 0 main b m\nfunction 0 only b/b.go 0\nunit 0 1.1,2.2 3 1\n\
package 1 main a m\nfunction 0 f a/a.go 0\nunit 0 9.1,10.2 1 0\nunit 1 5.1,6.2 2 1\nfunction 1 g a/a.go 0\nunit 0 7.1,8.2 0 1\n\
function 2 f a/a.go 1\nunit 0 6.1,6.9 15 0\nunit 1 11.1,12.2 1 1\nfunction 3 h a/c.go 0\nunit 0 1.1,2.2 5 0\n\
function 4 f a/b.go 0\nunit 0 1.1,2.2 5 1\n",
};

const ONE_PACKAGE: Case = Case {
    pods: &[MIXED],
    patterns: &[b"a/..."],
    profile: b"mode: set\na/a.go:5.1,6.2 2 1\na/a.go:6.1,6.9 15 0\na/a.go:7.1,8.2 0 1\na/a.go:9.1,10.2 1 0\n\
a/a.go:11.1,12.2 1 1\na/b.go:1.1,2.2 5 1\na/c.go:1.1,2.2 5 0\n",
    percent: b"\ta\t\tcoverage: 27.6% of statements\n",
    functions: b"a/a.go:5:\tf\t66.7%\na/a.go:6:\tf\t6.3%\na/a.go:7:\tg\t0.0%\na/b.go:1:\tf\t100.0%\na/c.go:1:\th\t0.0%\n\
total\t(statements)\t27.6%\n",
    list: b"a\n",
    dump: b"pod h mode set\n\
package 1 main a m\nfunction 0 f a/a.go 0\nunit 0 9.1,10.2 1 0\nunit 1 5.1,6.2 2 1\nfunction 1 g a/a.go 0\nunit 0 7.1,8.2 0 1\n\
function 2 f a/a.go 1\nunit 0 6.1,6.9 15 0\nunit 1 11.1,12.2 1 1\nfunction 3 h a/c.go 0\nunit 0 1.1,2.2 5 0\n\
function 4 f a/b.go 0\nunit 0 1.1,2.2 5 1\n",
};

fn decoded(alloc: Global, case: &Case) -> Result<Vec<DecodedPod>, NoMemory> {
    let mut pods = Vec::new(alloc);
    for shown in case.pods {
        pods.push(pod(alloc, shown)?)?;
    }
    Ok(pods)
}

fn table_of(alloc: Global, pods: &[DecodedPod]) -> Table {
    let mut table = Table::new(alloc);
    for pod in pods {
        let _added = table.add_pod(pod);
    }
    table
}

fn reports(alloc: Global, table: &Table, filter: &Filter, case: &Case) -> Result<bool, NoMemory> {
    Ok(
        textfmt(alloc, table, filter)?.as_slice() == case.profile
            && percent(alloc, table, filter)?.as_slice() == case.percent
            && func_report(alloc, table, filter)?.as_slice() == case.functions
            && pkglist(alloc, table, filter)?.as_slice() == case.list,
    )
}

#[test]
fn reports_pods(rt: HostRuntime) -> Result<(), Fail> {
    let alloc = rt.alloc();
    for (i, case) in [NOTHING, WHOLE, OTHERS, ALL_FUNCTIONS, ONE_PACKAGE]
        .iter()
        .enumerate()
    {
        let filter = filter_of(alloc, case.patterns)?;
        let pods = decoded(alloc, case)?;
        let table = table_of(alloc, &pods);
        assert!(rt;
            reports(alloc, &table, &filter, case)?,
            "reports of case {i}"
        );
        let dump = debugdump(alloc, &pods, &filter)?;
        assert!(rt; dump.as_slice() == case.dump, "dump of case {i}");
    }
    Ok(())
}
