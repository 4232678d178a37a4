//! Modules of a few files, and what running them comes to.
use super::{Ran, run_module};
use cov_outside::MemoryFiles;
use go_ast::{Place, SourceKind};
use go_load::LoadRefusal;
use go_meaning::End;
use go_state::Limits;
use std::alloc::Global;
use std::test::Fail;

const MODULE: (&str, &str) = ("m/go.mod", "module e.org/m\n\ngo 1.20\n");

fn run(
    alloc: Global,
    paths: &[(&str, &str)],
    steps: u32,
) -> Result<Result<Ran, LoadRefusal>, Fail> {
    let mut files = MemoryFiles::new(alloc, &[])?;
    for (path, text) in paths {
        files.add(path, text.as_bytes())?;
    }
    Ok(run_module(alloc, &mut files, "m", Limits { steps }))
}

/// A file's path, and the place and kind of its fault.
fn fault_of(ran: &Result<Ran, LoadRefusal>) -> Option<(&[u8], Place, SourceKind)> {
    match ran {
        Err(LoadRefusal::Source { path, place, kind }) => Some((path.bytes(), *place, *kind)),
        _ => None,
    }
}

#[test]
fn returns(rt: HostRuntime) -> Result<(), Fail> {
    let main = "package main\n\nimport \"fmt\"\n\nfunc main() {\n\tfmt.Println(\"one\")\n}\n";
    let ran = run(rt.alloc(), &[MODULE, ("m/main.go", main)], 1_000_000)?;
    let ran = ran.ok().ok_or("a run")?;
    assert_eq!(rt; ran.end, End::Returned);
    assert_eq!(rt; ran.output.as_slice(), b"one\n".as_slice());
    assert!(rt; !ran.events.is_empty());
    Ok(())
}

#[test]
fn ends_at_the_limit(rt: HostRuntime) -> Result<(), Fail> {
    let main = "package main\n\nfunc main() {\n\tfor {\n\t}\n}\n";
    let ran = run(rt.alloc(), &[MODULE, ("m/main.go", main)], 20)?;
    let ran = ran.ok().ok_or("a run")?;
    assert_eq!(rt; ran.end, End::StepLimit);
    assert_eq!(rt; ran.events.len(), 20);
    Ok(())
}

#[test]
fn exits(rt: HostRuntime) -> Result<(), Fail> {
    let main =
        "package main\n\nimport (\n\t\"fmt\"\n\t\"os\"\n)\n\nfunc main() {\n\tdefer fmt.Println(\"late\")\n\tos.Exit(3)\n}\n";
    let ran = run(rt.alloc(), &[MODULE, ("m/main.go", main)], 1_000_000)?;
    let ran = ran.ok().ok_or("a run")?;
    assert_eq!(rt; ran.end, End::Exit(3));
    assert!(rt; ran.output.is_empty());
    Ok(())
}

#[test]
fn place_in_the_second_package(rt: HostRuntime) -> Result<(), Fail> {
    let a = "package a\n\nfunc F() {\n}\n";
    let b = "package a\n\n// A file.\nfunc G() {\n\tF()\n\tx()\n}\n";
    let main = "package main\n\nimport \"e.org/m/a\"\n\nfunc main() {\n\ta.F()\n}\n";
    let paths = [
        MODULE,
        ("m/main.go", main),
        ("m/a/a.go", a),
        ("m/a/b.go", b),
    ];
    let ran = run(rt.alloc(), &paths, 1_000_000)?;
    let (path, place, kind) = fault_of(&ran).ok_or("a fault")?;
    assert_eq!(rt; path, b"m/a/b.go".as_slice());
    assert_eq!(rt; place, Place { line: 6, column: 2 });
    assert_eq!(rt; kind, SourceKind::Undeclared);
    Ok(())
}

#[test]
fn not_loaded(rt: HostRuntime) -> Result<(), Fail> {
    let ran = run(rt.alloc(), &[("m/main.go", "package main\n")], 1_000_000)?;
    match ran {
        Err(LoadRefusal::Missing { path }) => {
            assert_eq!(rt; path.bytes(), b"m/go.mod".as_slice());
            Ok(())
        }
        _ => Err(Fail::from("loaded")),
    }
}
