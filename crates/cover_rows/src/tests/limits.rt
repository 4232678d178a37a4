//! Limits of a source.
use super::*;
use std::test::Fail;

/// A text, and then many times a piece.
fn with_many(alloc: Global, front: &[u8], piece: &[u8], many: usize) -> Result<Vec<u8>, NoMemory> {
    let mut text = Vec::from_slice(alloc, front)?;
    for _ in 0..many {
        text.extend_from_slice(piece)?;
    }
    Ok(text)
}

/// Covers a source, and says whether something was put.
fn cover_text<R: Threads + Wait + Sync>(
    rt: &R,
    alloc: Global,
    text: &[u8],
) -> Result<(Outcome, bool), NoMemory> {
    let mut files = files_of(alloc, text, &[])?;
    let outcome = call(rt, alloc, "cover -mode=set -o=b a.go", &mut files, &[])?;
    Ok((outcome, files.get("b").is_some()))
}

#[test]
fn source_bytes(rt: HostRuntime) -> Result<(), Fail> {
    let alloc = rt.alloc();
    // How many bytes besides the 12 in front, the status and the line.
    for (many, code, line) in [
        (4_194_292, 0, ""),
        (4_194_293, 1, "gocov: limit SourceBytes 4194304\n"),
    ] {
        let text = with_many(alloc, b"package p\n//", b"x", many)?;
        let (outcome, put) = cover_text(&rt, alloc, &text)?;
        assert_eq!(rt; outcome.code, code);
        assert!(rt; outcome.line.as_slice() == line.as_bytes());
        assert_eq!(rt; put, code == 0);
    }
    Ok(())
}

#[test]
fn trees(rt: HostRuntime) -> Result<(), Fail> {
    let alloc = rt.alloc();
    let deep = with_many(alloc, b"package p\nvar W = ", b"!", 2000)?;
    let mut wide = with_many(alloc, b"package p\nfunc f(){select{", b"case <-c: ", 1001)?;
    wide.extend_from_slice(b"}}")?;
    for (text, line) in [
        (&deep, "gocov: limit Depth 1000\n"),
        (&wide, "gocov: limit SelectClauses 1000\n"),
    ] {
        let (outcome, put) = cover_text(&rt, alloc, text)?;
        assert_eq!(rt; outcome.code, 1);
        assert!(rt; outcome.line.as_slice() == line.as_bytes());
        assert!(rt; !put);
    }
    Ok(())
}
