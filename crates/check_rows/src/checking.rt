//! Sources of tables, and what checking them answers.
use go_ast::{File, Module, Package, SourceFile, SourceKind, Text};
use go_check::{CheckRefusal, parts_of};
use go_parse::{SourceFault, parse};
use sqlite_items::Items;
use std::alloc::{AllocError, Global};
use std::fmt::Write;
use std::test::Fail;

/// A text whose first fault has a kind and stands at the mark `@`, or that is accepted.
pub(super) type Row = (&'static str, Option<SourceKind>);

/// What stands around the rows of a table: what the text begins with, and what is put directly before and after a row.
#[derive(Clone, Copy, Debug)]
pub(super) struct Frame {
    pub(super) head: &'static str,
    pub(super) open: &'static str,
    pub(super) close: &'static str,
}

/// Imports and declarations for rows of statements. The imports are used.
pub(super) const HEAD: &str = "package main

import (
    \"fmt\"
    \"os\"
    \"strconv\"
    \"sync\"
)

const (
    five       = 5
    word       = \"word\"
    small int8 = 100
)

var (
    n, m int
    i8   int8
    i64  int64
    u    uint
    u8   byte
    r    rune
    s    string
    ok   bool
    c    chan int
    cs   chan string
    cc   chan chan int
    mu   sync.Mutex
    wg   sync.WaitGroup
)

func none() {}

func one() int { return 1 }

func two() (int, string) { return 1, \"a\" }

func take(a int, b string) {}

func imports() {
    fmt.Println(strconv.Itoa(n))
    os.Exit(0)
}

";

/// Rows are the statements of `main`.
pub(super) const MAIN: Frame = Frame {
    head: HEAD,
    open: "func main() {\n\t",
    close: "\n}\n",
};

/// Rows are declarations beside `main`.
pub(super) const PACKAGE: Frame = Frame {
    head: "package main\n\n",
    open: "",
    close: "\n\nfunc main() {}\n",
};

/// Rows are whole files.
pub(super) const FILE: Frame = Frame {
    head: "",
    open: "",
    close: "",
};

/// What is wrong with a module, and where.
#[derive(Clone, Copy, Debug, PartialEq, Eq)]
pub(super) struct Fault {
    pub(super) package: u64,
    pub(super) file: u64,
    pub(super) offset: usize,
    pub(super) kind: SourceKind,
}

/// A text without its marks, and the offset of the first of them.
#[derive(Debug, Drop)]
pub(super) struct Source {
    pub(super) text: Vec<u8>,
    pub(super) mark: Option<usize>,
}

impl Source {
    fn push(&mut self, part: &str) -> Result<(), AllocError> {
        for byte in part.as_bytes() {
            if *byte != b'@' {
                self.text.push(*byte)?;
            } else if self.mark.is_none() {
                self.mark = Some(self.text.len());
            }
        }
        Ok(())
    }

    /// The fault of a kind at the mark, in the first file of the first package.
    fn wanted(&self, kind: Option<SourceKind>) -> Option<Fault> {
        match (self.mark, kind) {
            (Some(offset), Some(kind)) => Some(Fault {
                package: 0,
                file: 0,
                offset,
                kind,
            }),
            _ => None,
        }
    }
}

/// The text that some parts make.
pub(super) fn source_of(alloc: Global, parts: &[&str]) -> Result<Source, AllocError> {
    let mut source = Source {
        text: Vec::new(alloc),
        mark: None,
    };
    for part in parts {
        source.push(part)?;
    }
    Ok(source)
}

/// The module of one package with one file.
fn module_of(alloc: Global, tree: File) -> Result<Module, AllocError> {
    let mut files = Items::new(alloc);
    files.push(SourceFile {
        name: Text::of(alloc, b"main.go")?,
        tree,
    })?;
    let mut packages = Items::new(alloc);
    packages.push(Package {
        path: Text::of(alloc, b"example.com/m")?,
        dir: Text::of(alloc, b"m")?,
        name: Text::of(alloc, b"main")?,
        files,
    })?;
    Ok(Module {
        path: Text::of(alloc, b"example.com/m")?,
        packages,
    })
}

/// The first fault of a module, if it has one.
pub(super) fn fault_in(alloc: Global, module: &Module) -> Result<Option<Fault>, AllocError> {
    match parts_of(alloc, module) {
        Ok(_) => Ok(None),
        Err(
            CheckRefusal::At {
                package,
                file,
                offset,
                kind,
            },
        ) => Ok(Some(Fault {
            package,
            file,
            offset: offset as usize,
            kind,
        })),
        Err(CheckRefusal::NoMemory) => Err(AllocError),
    }
}

/// The first fault of a source that is a module's only one. A source without a tree has the fault of its grammar.
fn fault_of(alloc: Global, text: &[u8]) -> Result<Option<Fault>, AllocError> {
    if text.len() > 10_000 {
        return Err(AllocError);
    }
    match parse(alloc, text) {
        Ok(tree) => fault_in(alloc, &module_of(alloc, tree)?),
        Err(SourceFault::At { offset, kind }) => Ok(Some(Fault {
            package: 0,
            file: 0,
            offset: offset as usize,
            kind,
        })),
        Err(_) => Err(AllocError),
    }
}

/// The rows that are answered otherwise than they say, each with the answer.
pub(super) fn differing(alloc: Global, frame: Frame, rows: &[Row]) -> Result<String, Fail> {
    let mut wrong = String::new(alloc);
    for (row, kind) in rows {
        let source = source_of(alloc, &[frame.head, frame.open, row, frame.close])?;
        let found = fault_of(alloc, &source.text)?;
        if found != source.wanted(*kind) {
            writeln!(wrong, "{row}\n  {found:?}")?;
        }
    }
    Ok(wrong)
}
