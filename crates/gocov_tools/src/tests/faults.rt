//! Each call of the outside that fails in turn: the answer, and what stands.
use super::*;
use std::test::Fail;

const READ: &[u8] = b"gocov: read fault\n";

const WRITE: &[u8] = b"gocov: write fault\n";

/// Calls `gocov` while call `k` of the files fails.
fn with_failing_file<R: Threads + Wait + Sync>(
    rt: &R,
    alloc: Global,
    line: &str,
    k: u64,
) -> Result<(Outcome, MemoryFiles), NoMemory> {
    let mut files = pod_of(alloc, META, COUNTERS, &[k])?;
    let outcome = call(rt, alloc, line, &mut files, NONE)?;
    Ok((outcome, files))
}

#[test]
fn files(rt: HostRuntime) -> Result<(), Fail> {
    let alloc = rt.alloc();
    let meta = "d/covmeta.11111111111111111111111111111111";
    let counters = "d/covcounters.11111111111111111111111111111111.7.9";
    // Words, how many listings and reads they make, how many calls with those that make a directory and put, and where a
    // meta file stands.
    for (words, reads, calls, stands) in [
        ("covdata percent -i=c", 5, 5, 9),
        ("covdata debugdump -i=c", 5, 5, 9),
        ("covdata textfmt -i=c -o=p", 5, 6, 9),
        ("covdata merge -i=c -o=d", 5, 8, 7),
    ] {
        for k in 0..9 {
            let (outcome, files) = with_failing_file(&rt, alloc, words, k)?;
            let code = if k < calls { 4 } else { 0 };
            assert_eq!(rt; outcome.code, code);
            if k < reads {
                assert!(rt; outcome.line.as_slice() == READ);
            } else if k < calls {
                assert!(rt; outcome.line.as_slice() == WRITE);
            } else {
                assert!(rt; outcome.line.is_empty());
            }
            if k < calls {
                assert!(rt; outcome.out.is_empty());
                assert!(rt; files.get("p").is_none());
                // The meta file stands where the put of the counter file failed.
                assert_eq!(rt; files.get(meta).is_some(), k == stands);
                assert!(rt; files.get(counters).is_none());
            }
        }
    }
    Ok(())
}

#[test]
fn sinks(rt: HostRuntime) -> Result<(), Fail> {
    let alloc = rt.alloc();
    let out = Failing {
        out: &[0],
        err: &[],
    };
    let err = Failing {
        out: &[],
        err: &[0],
    };
    // Words, what fails, status, the line.
    for (words, failing, code, line) in [
        ("covdata percent -i=c", out, 4, WRITE),
        ("covdata debugdump -i=c", out, 4, WRITE),
        ("covdata textfmt -i=c -o=p", out, 0, b"".as_slice()),
        ("covdata percent -i=c", err, 0, b"".as_slice()),
        ("covdata percent -x", err, 4, b"".as_slice()),
    ] {
        let mut files = pod_of(alloc, META, COUNTERS, &[])?;
        let outcome = call(&rt, alloc, words, &mut files, failing)?;
        assert_eq!(rt; outcome.code, code);
        assert!(rt; outcome.line.as_slice() == line);
        assert_eq!(rt; outcome.out.is_empty(), failing.err.is_empty() || code == 4);
    }
    Ok(())
}
