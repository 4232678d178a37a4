//! Every cut of the listed files.
use super::*;
use std::test::Fail;

/// What `percent` says of a fault at a byte.
fn fault_line(alloc: Global, path: &str, at: usize, kind: &str) -> Result<String, NoMemory> {
    format!(in alloc; "gocov: {path}: byte {at}: {kind}\n")
}

#[test]
fn a_cut_meta_file(rt: HostRuntime) -> Result<(), Fail> {
    let alloc = rt.alloc();
    // Cut to so many bytes, at least and fewer than: where the fault is.
    for (least, end, at, kind) in [
        (0, 4, 0, "Short"),
        (4, 8, 4, "Short"),
        (8, 16, 8, "Short"),
        (16, 24, 16, "Short"),
        (24, 40, 24, "Short"),
        (40, 44, 40, "Short"),
        (44, 48, 44, "Short"),
        (48, 49, 48, "Short"),
        (49, 50, 49, "Short"),
        (50, 56, 50, "Short"),
        (56, 64, 56, "Short"),
        (64, 72, 64, "Short"),
        (72, 183, 56, "BadRange"),
    ] {
        let expected = fault_line(alloc, META_PATH, at, kind)?;
        for length in least..end {
            let mut files = pod_of(alloc, &META[..META.len().min(length)], COUNTERS, &[])?;
            let outcome = call(&rt, alloc, "covdata percent -i=c", &mut files, NONE)?;
            assert_eq!(rt; outcome.code, 1);
            assert!(rt; outcome.line.as_slice() == expected.as_bytes());
        }
    }
    Ok(())
}

#[test]
fn a_cut_counter_file(rt: HostRuntime) -> Result<(), Fail> {
    let alloc = rt.alloc();
    for (least, end, at) in [
        (0, 4, 0),
        (4, 8, 4),
        (8, 24, 8),
        (24, 25, 24),
        (25, 26, 25),
        (26, 32, 26),
        (32, 40, 32),
        (40, 44, 40),
        (44, 48, 44),
        (48, 49, 48),
        (49, 52, 49),
        (52, 53, 52),
        (53, 54, 53),
        (54, 55, 54),
        (55, 56, 55),
        (56, 57, 56),
        (57, 58, 57),
        (58, 74, 58),
    ] {
        let expected = fault_line(alloc, COUNTERS_PATH, at, "Short")?;
        for length in least..end {
            let mut files = pod_of(alloc, META, &COUNTERS[..COUNTERS.len().min(length)], &[])?;
            let outcome = call(&rt, alloc, "covdata percent -i=c", &mut files, NONE)?;
            assert_eq!(rt; outcome.code, 1);
            assert!(rt; outcome.line.as_slice() == expected.as_bytes());
        }
    }
    Ok(())
}
