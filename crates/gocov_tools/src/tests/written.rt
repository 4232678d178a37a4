//! Pods that are written.
use super::*;
use cov_counter::{Entry, write_counters};
use cov_outside::{Files, Sequence};
use std::test::Fail;

const HASH: [u8; 16] = [0x11; 16];

const SECOND: &str = "c/covcounters.11111111111111111111111111111111.1.2";

/// A counter file of the one function with these counts.
fn counters(alloc: Global, counts: [u32; 3]) -> Result<Vec<u8>, NoMemory> {
    let entry = Entry {
        package: 0,
        function: 0,
        counts: Sequence::from_vec(Vec::from_slice(alloc, &counts)?),
    };
    write_counters(alloc, &HASH, &[entry])
}

/// How many bytes the counter file in a directory has.
fn counter_length(alloc: Global, files: &mut MemoryFiles, dir: &str) -> Option<usize> {
    let Ok(names) = files.list(alloc, dir) else {
        return None;
    };
    let mut length = None;
    for name in &names {
        if name.bytes().starts_with(b"covcounters.") {
            let mut path = String::from_str(alloc, dir).ok()?;
            path.push_str("/").ok()?;
            path.push_str(std::str::from_utf8(name.bytes()).ok()?).ok()?;
            length = Some(files.get(path.as_str())?.len());
        }
    }
    length
}

#[test]
fn counts_stop_at_the_greatest(rt: HostRuntime) -> Result<(), Fail> {
    let alloc = rt.alloc();
    let first = counters(alloc, [4_294_967_295, 0, 2])?;
    let second = counters(alloc, [1, 0, 3])?;
    // The mode, and the counts of both files together.
    for (mode, counts, profile) in [
        (
            1,
            [1, 0, 1],
            "mode: set\nexample.com/m/main.go:5.13,7.11 2 1\nexample.com/m/main.go:7.11,9.3 1 0\nexample.com/m/main.go:9.8,11.3 1 1\n",
        ),
        (
            3,
            [4_294_967_295, 0, 5],
            "mode: atomic\nexample.com/m/main.go:5.13,7.11 2 4294967295\nexample.com/m/main.go:7.11,9.3 1 0\nexample.com/m/main.go:9.8,11.3 1 5\n",
        ),
    ] {
        let meta = changed(alloc, META, 48, mode)?;
        let mut files = pod_of(alloc, &meta, &first, &[])?;
        files.add(SECOND, &second)?;
        let outcome = call(&rt, alloc, "covdata textfmt -i=c -o=p", &mut files, NONE)?;
        assert_eq!(rt; outcome.code, 0);
        assert!(rt; files.get("p").expect(&rt, "a profile") == profile.as_bytes());
        let outcome = call(&rt, alloc, "covdata merge -i=c -o=d", &mut files, NONE)?;
        assert_eq!(rt; outcome.code, 0);
        assert!(rt; outcome.out.is_empty());
        let put = files.get("d/covmeta.11111111111111111111111111111111");
        assert!(rt; put.expect(&rt, "a meta file") == meta.as_slice());
        let put = files.get("d/covcounters.11111111111111111111111111111111.7.9");
        let merged = counters(alloc, counts)?;
        assert!(rt; put.expect(&rt, "a counter file") == merged.as_slice());
    }
    Ok(())
}

#[test]
fn subtracted_and_intersected(rt: HostRuntime) -> Result<(), Fail> {
    let alloc = rt.alloc();
    // Words, the counts in the profile of the pod that is put, and how many bytes its counter file has.
    for (words, profile, length) in [
        (
            "covdata subtract -i=c,c -o=d",
            "mode: set\nexample.com/m/main.go:5.13,7.11 2 0\nexample.com/m/main.go:7.11,9.3 1 0\nexample.com/m/main.go:9.8,11.3 1 0\n",
            68,
        ),
        ("covdata intersect -i=c,c -o=d", PROFILE, 74),
        ("covdata subtract -i=c,empty -o=d", PROFILE, 74),
    ] {
        let mut files = pod_of(alloc, META, COUNTERS, &[])?;
        let outcome = call(&rt, alloc, words, &mut files, NONE)?;
        assert_eq!(rt; outcome.code, 0);
        assert_eq!(rt; counter_length(alloc, &mut files, "d"), Some(length));
        let outcome = call(&rt, alloc, "covdata textfmt -i=d -o=p", &mut files, NONE)?;
        assert_eq!(rt; outcome.code, 0);
        assert!(rt; files.get("p").expect(&rt, "a profile") == profile.as_bytes());
    }
    Ok(())
}

#[test]
fn an_empty_table_is_no_pod(rt: HostRuntime) -> Result<(), Fail> {
    let alloc = rt.alloc();
    let mut files = pod_of(alloc, META, COUNTERS, &[])?;
    let outcome = call(
        &rt,
        alloc,
        "covdata subtract -i=empty,c -o=d",
        &mut files,
        NONE,
    )?;
    assert_eq!(rt; outcome.code, 0);
    assert_eq!(rt; counter_length(alloc, &mut files, "d"), None);
    Ok(())
}
