//! What each command answers and writes on the listed pod.
use super::*;
use std::test::Fail;

const PERCENT: &str = "\texample.com/m\t\tcoverage: 75.0% of statements\n";

/// Directory `c` with the pod, and `b` with a pod in mode atomic under another hash and a counter file of no pod.
fn dirs(alloc: Global) -> Result<MemoryFiles, NoMemory> {
    let mut files = pod_of(alloc, META, COUNTERS, &[])?;
    let atomic = changed(alloc, META, 48, 3)?;
    files.add("b/covmeta.33333333333333333333333333333333", &atomic)?;
    files.add(
        "b/covcounters.44444444444444444444444444444444.1.1",
        b"orphan",
    )?;
    Ok(files)
}

#[test]
fn commands(rt: HostRuntime) -> Result<(), Fail> {
    let alloc = rt.alloc();
    let functions = "example.com/m/main.go:5:\tmain\t75.0%\ntotal\t(statements)\t75.0%\n";
    let dump = "pod 11111111111111111111111111111111 mode set\n\
package 0 main example.com/m example.com/m\n\
function 0 main example.com/m/main.go 0\n\
unit 0 5.13,7.11 2 1\n\
unit 1 7.11,9.3 1 1\n\
unit 2 9.8,11.3 1 0\n\
counters covcounters.11111111111111111111111111111111.1.1 flavour 2 functions 1 args 0\n";
    // Words, status, what `out` receives, the line on `err`.
    for (words, code, out, line) in [
        ("covdata percent -i=c", 0, PERCENT, ""),
        ("covdata func -i=c", 0, functions, ""),
        ("covdata pkglist -i=c", 0, "example.com/m\n", ""),
        ("covdata debugdump -i=c", 0, dump, ""),
        ("covdata percent -i=c -pkg=example.com/...", 0, PERCENT, ""),
        ("covdata percent -i=c -pkg=example.com", 0, "", ""),
        (
            "covdata func -i=empty",
            0,
            "total\t(statements)\t0.0%\n",
            "",
        ),
        ("covdata percent -i=empty", 0, "", ""),
        // The last of repeated flags counts, with one or two dashes, and its value may be the next word.
        ("covdata percent -i b -i c", 0, PERCENT, ""),
        ("covdata percent --i=c", 0, PERCENT, ""),
        ("covdata percent -i=c --", 0, PERCENT, ""),
        ("covdata textfmt -o=f", 2, "", "gocov: usage: word 3\n"),
        ("covdata percent -i=c x", 2, "", "gocov: usage: word 3\n"),
        ("covdata percent -x", 2, "", "gocov: usage: word 2\n"),
        (
            "covdata subtract -i=c -o=d",
            2,
            "",
            "gocov: usage: word 2\n",
        ),
        (
            "covdata intersect -i=c,c,c -o=d",
            2,
            "",
            "gocov: usage: word 2\n",
        ),
        ("covdate", 2, "", "gocov: usage: word 0\n"),
        (
            "cover -mode=set -o=b.go a.go",
            1,
            "",
            "gocov: a.go: Missing\n",
        ),
        ("run c", 3, "", "gocov: not built\n"),
        (
            "covdata percent -i=c,b",
            1,
            "",
            "gocov: mode clash: c/covmeta.11111111111111111111111111111111 set, b/covmeta.33333333333333333333333333333333 atomic\n",
        ),
        (
            "covdata percent -i=b",
            0,
            "\texample.com/m\t\tcoverage: 0.0% of statements\n",
            "",
        ),
    ] {
        let mut files = dirs(alloc)?;
        let outcome = call(&rt, alloc, words, &mut files, NONE)?;
        assert_eq!(rt; outcome.code, code);
        assert!(rt; outcome.out.as_slice() == out.as_bytes());
        assert!(rt; outcome.line.as_slice() == line.as_bytes());
    }
    Ok(())
}

#[test]
fn no_words(rt: HostRuntime) -> Result<(), Fail> {
    let alloc = rt.alloc();
    let mut files = dirs(alloc)?;
    let outcome = call_words(&rt, alloc, &[], &mut files, NONE)?;
    assert_eq!(rt; outcome.code, 2);
    assert!(rt; outcome.line.as_slice() == b"gocov: usage: word 0\n".as_slice());
    Ok(())
}

#[test]
fn profiles(rt: HostRuntime) -> Result<(), Fail> {
    let alloc = rt.alloc();
    // Words, and the profile that is put to `p`.
    for (words, profile) in [
        ("covdata textfmt -i=c -o=p", PROFILE),
        ("covdata textfmt -i=empty -o=p", ""),
        ("covdata textfmt -i=c -o=p -pkg=other", "mode: set\n"),
    ] {
        let mut files = dirs(alloc)?;
        let outcome = call(&rt, alloc, words, &mut files, NONE)?;
        assert_eq!(rt; outcome.code, 0);
        assert!(rt; outcome.out.is_empty());
        let put = files.get("p").expect(&rt, "a profile");
        assert!(rt; put == profile.as_bytes());
    }
    Ok(())
}
