//! Modules of a few files, and what loading them comes to.
use cov_outside::MemoryFiles;
use go_ast::{Place, SourceKind};
use go_load::{LoadKind, LoadRefusal, Loaded, load, load_for_cover};
use std::alloc::{AllocError, Global};
use std::fmt::Write;
use std::test::Fail;

fn kind_name(kind: &LoadKind) -> &'static [u8] {
    match kind {
        LoadKind::BadModule => b"BadModule ",
        LoadKind::Cycle(_) => b"Cycle ",
        LoadKind::UnknownImport => b"UnknownImport ",
        LoadKind::NoSource => b"NoSource ",
        LoadKind::TwoPackages => b"TwoPackages ",
        LoadKind::NoMain => b"NoMain ",
        LoadKind::ImportsMain => b"ImportsMain ",
    }
}

fn joined(alloc: Global, front: &[u8], path: &[u8]) -> Result<Vec<u8>, AllocError> {
    let mut text = Vec::new(alloc);
    text.extend_from_slice(front)?;
    text.extend_from_slice(path)?;
    Ok(text)
}

fn shown_refusal(alloc: Global, refusal: &LoadRefusal) -> Result<Vec<u8>, AllocError> {
    match refusal {
        LoadRefusal::Load { path, kind } => joined(alloc, kind_name(kind), path.bytes()),
        LoadRefusal::Source { path, .. } => joined(alloc, b"Source ", path.bytes()),
        LoadRefusal::Missing { path } => joined(alloc, b"Missing ", path.bytes()),
        LoadRefusal::Limit(which) => joined(alloc, b"Limit ", which.name()),
        LoadRefusal::Read => joined(alloc, b"Read", b""),
        LoadRefusal::NoMemory => joined(alloc, b"NoMemory", b""),
    }
}

fn shown_module(alloc: Global, loaded: &Loaded) -> Result<Vec<u8>, AllocError> {
    let mut text = Vec::new(alloc);
    for package in loaded.module.packages.as_slice() {
        text.extend_from_slice(package.path.bytes())?;
        text.push(b';')?;
    }
    Ok(text)
}

fn shown(alloc: Global, files: &mut MemoryFiles) -> Result<Vec<u8>, AllocError> {
    match load(alloc, files, "m") {
        Ok(loaded) => shown_module(alloc, &loaded),
        Err(refusal) => shown_refusal(alloc, &refusal),
    }
}

fn files_of(alloc: Global, paths: &[(&str, &str)]) -> Result<MemoryFiles, Fail> {
    let mut files = MemoryFiles::new(alloc, &[])?;
    for (path, text) in paths {
        files.add(path, text.as_bytes())?;
    }
    Ok(files)
}

/// Paths with their texts, and the module's packages in load order or the refusal.
type Case = (&'static [(&'static str, &'static str)], &'static str);

const MODULE: (&str, &str) = ("m/go.mod", "module e.org/m\n\ngo 1.20\n");

const CASES: [Case; 24] = [
    (
        &[MODULE, ("m/main.go", "package main\nimport \"fmt\"\n")],
        "e.org/m;",
    ),
    (
        &[
            MODULE,
            (
                "m/b.go",
                "package main\nimport \"e.org/m/z\"\nimport \"e.org/m/a\"\n",
            ),
            ("m/a.go", "package main\n"),
            ("m/a/a.go", "package a\n"),
            ("m/z/z.go", "package z\nimport \"e.org/m/y/x\"\n"),
            ("m/y/x/x.go", "package x\n"),
            ("m/w/w.go", "package w\n"),
        ],
        "e.org/m/a;e.org/m/y/x;e.org/m/z;e.org/m;",
    ),
    (
        &[
            MODULE,
            (
                "m/m.go",
                "package main\nimport (\n\"e.org/m/b\"\n\"e.org/m/a\"\n)\n",
            ),
            ("m/a/a.go", "package a\nimport \"e.org/m/b\"\n"),
            ("m/b/b.go", "package b\nimport \"e.org/m/a\"\n"),
        ],
        "Cycle e.org/m/a",
    ),
    (
        &[
            MODULE,
            ("m/main.go", "package main\n"),
            ("m/_x.go", "!"),
            ("m/.x.go", "!"),
            ("m/x_test.go", "!"),
            ("m/x.txt", "!"),
        ],
        "e.org/m;",
    ),
    (&[("m/main.go", "package main\n")], "Missing m/go.mod"),
    (
        &[("m/go.mod", "go 1.20\n"), ("m/m.go", "!")],
        "BadModule m/go.mod",
    ),
    (&[MODULE], "NoSource m"),
    (&[MODULE, ("m/m.go", "package p\n")], "NoMain m"),
    (
        &[
            MODULE,
            ("m/a.go", "package main\n"),
            ("m/b.go", "package p\n"),
        ],
        "TwoPackages m",
    ),
    (
        &[
            MODULE,
            ("m/a.go", "package main\n"),
            ("m/b.go", "package $"),
        ],
        "Source m/b.go",
    ),
    (
        &[MODULE, ("m/a.go", "package main\nimport \"net\"\n")],
        "UnknownImport net",
    ),
    (
        &[MODULE, ("m/a.go", "package main\nimport \"e.org/m/\"\n")],
        "UnknownImport e.org/m/",
    ),
    (
        &[MODULE, ("m/a.go", "package main\nimport \"e.org/m/..\"\n")],
        "UnknownImport e.org/m/..",
    ),
    (
        &[MODULE, ("m/a.go", "package main\nimport \"e.org/mm\"\n")],
        "UnknownImport e.org/mm",
    ),
    (
        &[MODULE, ("m/a.go", "package main\nimport \"e.org/m/x\"\n")],
        "NoSource m/x",
    ),
    (
        &[
            MODULE,
            ("m/a.go", "package main\nimport \"e.org/m/x\"\n"),
            ("m/x/x.go", "package main\n"),
        ],
        "ImportsMain e.org/m/x",
    ),
    (
        &[
            ("m/go.mod", "module fmt\n"),
            ("m/a.go", "package main\nimport \"fmt\"\n"),
        ],
        "fmt;",
    ),
    (
        &[
            ("m/go.mod", "module example.com/m\n"),
            ("m/m.go", "package main\nimport \"example.com/m/b\"\n"),
            ("m/b/b.go", "package b\nimport \"example.com/m/a\"\n"),
            ("m/a/a.go", "package a\nimport \"example.com/m/b\"\n"),
        ],
        "Cycle example.com/m/a",
    ),
    (
        &[
            MODULE,
            ("m/m.go", "package main\nimport \"fmt\"\n"),
            ("m/fmt/f.go", "!"),
        ],
        "e.org/m;",
    ),
    (
        &[
            MODULE,
            ("m/m.go", "package main\nimport \"e.org/m/fmt\"\n"),
            ("m/fmt/f.go", "package fmt\n"),
        ],
        "e.org/m/fmt;e.org/m;",
    ),
    (
        &[
            MODULE,
            ("m/a.go", "package p\nimport \"net\"\n"),
            ("m/b.go", "package q\n"),
        ],
        "TwoPackages m",
    ),
    (
        &[MODULE, ("m/a.go", "package p\nimport \"net\"\n")],
        "NoMain m",
    ),
    (
        &[
            MODULE,
            ("m/a.go", "package main\nimport \"e.org/m/x\"\n"),
            ("m/x/x.go", "package main\nimport \"net\"\n"),
        ],
        "ImportsMain e.org/m/x",
    ),
    (
        &[
            MODULE,
            ("m/a.go", "package main\nimport \"e.org/m/x\"\n"),
            (
                "m/x/x.go",
                "package x\nimport \"e.org/m/x\"\nimport \"net\"\n",
            ),
        ],
        "UnknownImport net",
    ),
];

// Adds a package of one file, and its import to the text of the importing file.
fn add_package(
    alloc: Global,
    files: &mut MemoryFiles,
    text: &mut String,
    number: u32,
) -> Result<(), Fail> {
    writeln!(text, "\"e.org/m/p{number}\"")?;
    let mut path = String::new(alloc);
    write!(path, "m/p{number}/p.go")?;
    files.add(&path, b"package p\n")?;
    Ok(())
}

// A module whose main package imports so many others.
fn with_imports(alloc: Global, count: u32) -> Result<MemoryFiles, Fail> {
    let mut files = files_of(alloc, &[MODULE])?;
    let mut text = String::new(alloc);
    writeln!(text, "package main\nimport (")?;
    for number in 0..count {
        add_package(alloc, &mut files, &mut text, number)?;
    }
    writeln!(text, ")")?;
    files.add("m/main.go", text.as_bytes())?;
    Ok(files)
}

#[test]
fn most_packages(rt: HostRuntime) -> Result<(), Fail> {
    let mut files = with_imports(rt.alloc(), 999)?;
    let loaded = load(rt.alloc(), &mut files, "m").map(|l| l.module.packages.len());
    assert_eq!(rt; loaded.unwrap_or(0), 1000);
    Ok(())
}

#[test]
fn one_package_more(rt: HostRuntime) -> Result<(), Fail> {
    let mut files = with_imports(rt.alloc(), 1000)?;
    let got = shown(rt.alloc(), &mut files)?;
    assert_eq!(rt; got.as_slice(), b"Limit Packages".as_slice());
    Ok(())
}

/// The text of the one file of a module, and the place of the name that its covered text gives a meaning.
type NameCase = (&'static str, Option<(u32, u32)>);

const NAMES: [NameCase; 6] = [
    ("package main\nvar GoCover_01 int\n", None),
    ("package main\nvar GoCover_0 int\n", Some((2, 5))),
    (
        "package main\nfunc f() {\n\t_cover_atomic_x()\n}\n",
        Some((3, 2)),
    ),
    ("package main\n) GoCover_10\n", Some((2, 3))),
    ("package main\n// GoCover_1\nvar s = \"GoCover_2\"\n", None),
    ("package main\nvar a.GoCover_3, GoCover_4\n", Some((2, 7))),
];

fn name_fault(alloc: Global, text: &str) -> Result<Option<Place>, Fail> {
    let mut files = files_of(alloc, &[MODULE, ("m/m.go", text)])?;
    match load_for_cover(alloc, &mut files, "m") {
        Err(
            LoadRefusal::Source {
                place,
                kind: SourceKind::CoverName,
                ..
            },
        ) => Ok(Some(place)),
        _ => Ok(None),
    }
}

#[test]
fn cover_names(rt: HostRuntime) -> Result<(), Fail> {
    for (text, want) in &NAMES {
        let found = name_fault(rt.alloc(), text)?;
        let want = want.map(|(line, column)| Place { line, column });
        assert!(rt; found == want, "{text}");
    }
    Ok(())
}

// Faults of lexing come before names, names before faults of parsing; without counters every name is allowed.
#[test]
fn cover_names_in_order(rt: HostRuntime) -> Result<(), Fail> {
    let text = "package main\nvar GoCover_0 int\nvar s = $\n";
    assert!(rt; name_fault(rt.alloc(), text)?.is_none());
    let mut files = files_of(
        rt.alloc(),
        &[MODULE, ("m/m.go", "package main\nvar GoCover_0 int\n")],
    )?;
    let got = shown(rt.alloc(), &mut files)?;
    assert_eq!(rt; got.as_slice(), b"e.org/m;".as_slice());
    Ok(())
}

#[test]
fn modules(rt: HostRuntime) -> Result<(), Fail> {
    for (paths, want) in &CASES {
        let mut files = files_of(rt.alloc(), paths)?;
        let got = shown(rt.alloc(), &mut files)?;
        assert_eq!(rt; got.as_slice(), want.as_bytes());
    }
    Ok(())
}
