//! Files that no writer of ours makes.
use super::*;
use std::test::Fail;

/// A file with bytes put in before an offset.
fn spliced(alloc: Global, bytes: &[u8], at: usize, more: &[u8]) -> Result<Vec<u8>, NoMemory> {
    let (front, rest) = bytes.split_at(at.min(bytes.len()));
    let mut copy = Vec::from_slice(alloc, front)?;
    copy.extend_from_slice(more)?;
    copy.extend_from_slice(rest)?;
    Ok(copy)
}

/// The first 164 bytes of the meta file, with another function record and another length of the blob.
fn with_record(alloc: Global, record: &[u8], length: u8) -> Result<Vec<u8>, NoMemory> {
    let mut file = changed(alloc, &META[..164], 64, length)?;
    file.extend_from_slice(record)?;
    changed(alloc, &file, 74, length)
}

/// The meta file with two entries that name the same blob.
fn twice(alloc: Global) -> Result<Vec<u8>, NoMemory> {
    let file = changed(alloc, META, 16, 2)?;
    let file = changed(alloc, &file, 56, 90)?;
    let file = spliced(alloc, &file, 64, b"\x5a\x00\x00\x00\x00\x00\x00\x00")?;
    spliced(alloc, &file, 80, b"m\x00\x00\x00\x00\x00\x00\x00")
}

#[test]
fn meta_files(rt: HostRuntime) -> Result<(), Fail> {
    let alloc = rt.alloc();
    let whole_file = changed(alloc, &changed(alloc, META, 56, 0)?, 64, 183)?;
    let promised = with_record(alloc, b"\x80\x80\x40\x00\x02", 95)?;
    let too_many = with_record(alloc, b"\xff\xff\xff\xff\x0f\x00\x02", 97)?;
    assert_eq!(rt; promised.len(), 169);
    for (meta, line) in [
        (
            whole_file.as_slice(),
            "gocov: c/covmeta.11111111111111111111111111111111: byte 180: Short\n",
        ),
        (
            promised.as_slice(),
            "gocov: c/covmeta.11111111111111111111111111111111: byte 169: Short\n",
        ),
        (too_many.as_slice(), "gocov: limit Units 1048576\n"),
    ] {
        let mut files = pod_of(alloc, meta, COUNTERS, &[])?;
        let outcome = call(&rt, alloc, "covdata percent -i=c", &mut files, NONE)?;
        assert_eq!(rt; outcome.code, 1);
        assert!(rt; outcome.line.as_slice() == line.as_bytes());
    }
    Ok(())
}

#[test]
fn counter_files(rt: HostRuntime) -> Result<(), Fail> {
    let alloc = rt.alloc();
    let place = changed(alloc, COUNTERS, 53, 1)?;
    let function = changed(alloc, COUNTERS, 54, 1)?;
    let count = changed(alloc, COUNTERS, 52, 2)?;
    let padded = spliced(alloc, COUNTERS, 58, b"\x00")?;
    let dirty = spliced(alloc, COUNTERS, 58, b"\x01")?;
    let long = spliced(alloc, COUNTERS, 58, b"\x00\x00\x00\x00")?;
    for (counters, code, kind) in [
        (place.as_slice(), 1, "byte 52: BadPackage\n"),
        (function.as_slice(), 1, "byte 52: BadFunction\n"),
        (count.as_slice(), 1, "byte 52: BadCount\n"),
        (padded.as_slice(), 0, ""),
        (dirty.as_slice(), 1, "byte 58: BadPadding\n"),
        (long.as_slice(), 1, "byte 58: Trailing\n"),
    ] {
        let mut files = pod_of(alloc, META, counters, &[])?;
        let outcome = call(&rt, alloc, "covdata percent -i=c", &mut files, NONE)?;
        assert_eq!(rt; outcome.code, code);
        assert!(rt; outcome.line.ends_with(kind.as_bytes()));
        assert_eq!(rt; outcome.line.is_empty(), code == 0);
    }
    Ok(())
}

#[test]
fn two_entries_of_one_blob(rt: HostRuntime) -> Result<(), Fail> {
    let alloc = rt.alloc();
    let meta = twice(alloc)?;
    let mut files = pod_of(alloc, &meta, COUNTERS, &[])?;
    let dump = call(&rt, alloc, "covdata debugdump -i=c", &mut files, NONE)?;
    assert_eq!(rt; dump.code, 0);
    let second = b"package 1 main example.com/m example.com/m\n\
function 0 main example.com/m/main.go 0\n\
unit 0 5.13,7.11 2 0\n\
unit 1 7.11,9.3 1 0\n\
unit 2 9.8,11.3 1 0\n\
counters covcounters.11111111111111111111111111111111.1.1 flavour 2 functions 1 args 0\n";
    assert!(rt; dump.out.ends_with(second));
    let profile = call(&rt, alloc, "covdata textfmt -i=c -o=p", &mut files, NONE)?;
    assert_eq!(rt; profile.code, 0);
    assert!(rt; files.get("p").expect(&rt, "a profile") == PROFILE.as_bytes());
    Ok(())
}

#[test]
fn other_spellings(rt: HostRuntime) -> Result<(), Fail> {
    let alloc = rt.alloc();
    // The same counts as raw big-endian numbers.
    let raw =
        b"\x00cwm\x01\x00\x00\x00\x11\x11\x11\x11\x11\x11\x11\x11\x11\x11\x11\x11\x11\x11\x11\x11\
\x01\x01\x00\x00\x00\x00\x00\x00\x01\x00\x00\x00\x00\x00\x00\x00\x01\x00\x00\x00\x03\x00\x00\x00\x00\x00\x00\x00\
\x00\x00\x00\x03\x00\x00\x00\x00\x00\x00\x00\x00\x00\x00\x00\x01\x00\x00\x00\x01\x00\x00\x00\x00\
\x00cwm\x00\x00\x00\x00\x01\x00\x00\x00\x00\x00\x00\x00";
    // With the argument pairs that a Go program records.
    let pairs =
        b"\x00cwm\x01\x00\x00\x00\x11\x11\x11\x11\x11\x11\x11\x11\x11\x11\x11\x11\x11\x11\x11\x11\
\x02\x00\x00\x00\x00\x00\x00\x00\x01\x00\x00\x00\x00\x00\x00\x00\x2b\x00\x00\x00\x09\x00\x00\x00\
\x09\x00\x04argc\x011\x05argv0\x03./m\x04GOOS\x05linux\x06GOARCH\x05amd64\x04\x01\x02\x03\x04\x05\x06\x07\x08\
\x03\x00\x00\x01\x01\x00\x00cwm\x00\x00\x00\x00\x01\x00\x00\x00\x00\x00\x00\x00";
    assert_eq!(rt; raw.len(), 92);
    for (counters, end) in [
        (raw.as_slice(), "flavour 1 functions 1 args 0\n"),
        (pairs.as_slice(), "flavour 2 functions 1 args 4\n"),
    ] {
        let mut files = pod_of(alloc, META, counters, &[])?;
        let dump = call(&rt, alloc, "covdata debugdump -i=c", &mut files, NONE)?;
        assert_eq!(rt; dump.code, 0);
        assert!(rt; dump.out.ends_with(end.as_bytes()));
        let profile = call(&rt, alloc, "covdata textfmt -i=c -o=p", &mut files, NONE)?;
        assert_eq!(rt; profile.code, 0);
        assert!(rt; files.get("p").expect(&rt, "a profile") == PROFILE.as_bytes());
    }
    Ok(())
}
