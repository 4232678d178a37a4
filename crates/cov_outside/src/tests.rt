use super::*;
use std::alloc::{AllocError, Global};
use std::fs;
use std::test::Fail;
use std::time::{SystemTime, UNIX_EPOCH};

/// A folder of this test alone.
fn folder(rt: &HostRuntime) -> Result<String, Fail> {
    let since = SystemTime::now(rt)?.duration_since(UNIX_EPOCH)?;
    let nanos = since.as_nanos();
    let folder = format!(in rt.alloc(); "/tmp/gocov-test-{nanos}")?;
    fs::create_dir_all(rt, folder.as_str())?;
    Ok(folder)
}

fn names_text(alloc: Global, names: &[Text]) -> Result<Vec<u8>, AllocError> {
    let mut text = Vec::new(alloc);
    for name in names {
        text.extend_from_slice(name.bytes())?;
        text.push(b' ')?;
    }
    Ok(text)
}

#[test]
fn host_files(rt: HostRuntime) -> Result<(), Fail> {
    let alloc = rt.alloc();
    let folder = folder(&rt)?;
    let mut files = HostFiles::new(&rt, alloc);
    let file = format!(in alloc; "{folder}/b")?;
    assert!(rt; files.put(file.as_str(), b"first").is_ok());
    assert!(rt; files.put(file.as_str(), b"second").is_ok());
    let other = format!(in alloc; "{folder}/a")?;
    assert!(rt; files.put(other.as_str(), b"").is_ok());
    let inner = format!(in alloc; "{folder}/c")?;
    assert!(rt; files.make_dir(inner.as_str()).is_ok());
    assert!(rt; files.make_dir(inner.as_str()).is_ok());
    assert!(rt; files.make_dir(file.as_str()).is_err());
    let names = files.list(alloc, folder.as_str()).expect(&rt, "names");
    assert!(rt; names_text(alloc, &names)?.as_slice() == b"a b ".as_slice());
    let bytes = read_whole(alloc, &mut files, file.as_str(), 6).expect(&rt, "bytes");
    assert!(rt; bytes.as_slice() == b"second".as_slice());
    let limit = read_whole(alloc, &mut files, file.as_str(), 5);
    assert!(rt; limit.expect_err(&rt, "limit") == WholeFault::Limit);
    let missing = format!(in alloc; "{folder}/d")?;
    let none = read_whole(alloc, &mut files, missing.as_str(), 5);
    assert!(rt; none.expect_err(&rt, "missing") == WholeFault::Missing);
    let of_folder = read_whole(alloc, &mut files, inner.as_str(), 5);
    assert!(rt; of_folder.expect_err(&rt, "folder") == WholeFault::Read);
    assert!(rt; files.list(alloc, missing.as_str()).is_err());
    assert!(rt; files.put(inner.as_str(), b"x").is_err());
    fs::remove_dir_all(&rt, folder.as_str())?;
    Ok(())
}

#[test]
fn host_sink(rt: HostRuntime) -> Result<(), Fail> {
    let mut out = Vec::new(rt.alloc());
    let mut sink = HostSink::new(&mut out);
    assert!(rt; write_whole(&mut sink, b"one ").is_ok());
    assert!(rt; write_whole(&mut sink, b"two").is_ok());
    assert!(rt; out.as_slice() == b"one two".as_slice());
    Ok(())
}

#[test]
fn memory_fails_by_number(rt: HostRuntime) -> Result<(), Fail> {
    let alloc = rt.alloc();
    let mut files = MemoryFiles::new(alloc, &[1, 3])?;
    files.add("d/b", b"xyz")?;
    files.add("d/a", b"")?;
    files.add("d/e/f", b"")?;
    let names = files.list(alloc, "d").expect(&rt, "names");
    assert!(rt; names_text(alloc, &names)?.as_slice() == b"a b ".as_slice());
    assert!(rt; files.list(alloc, "d").is_err());
    assert!(rt; files.put("d/b", b"new").is_ok());
    assert!(rt; files.put("d/b", b"newer").is_err());
    assert!(rt; files.get("d/b") == Some(b"new".as_slice()));
    assert!(rt; files.get("d/c").is_none());
    assert!(rt; files.make_dir("d").is_ok());
    let mut sink = MemorySink::new(alloc, &[1])?;
    assert!(rt; write_whole(&mut sink, b"one").is_ok());
    assert!(rt; write_whole(&mut sink, b"two").is_err());
    assert!(rt; sink.bytes() == b"one".as_slice());
    Ok(())
}

#[test]
fn values(rt: HostRuntime) -> Result<(), Fail> {
    let alloc = rt.alloc();
    for (mode, a, b, want) in [
        (Mode::Set, 0, 0, 0),
        (Mode::Set, 7, 0, 1),
        (Mode::Set, 1, 1, 1),
        (Mode::Count, 4294967295, 1, 4294967295),
        (Mode::Atomic, 2, 3, 5),
    ] {
        assert_eq!(rt; mode.combine(a, b), want);
    }
    let text = Text::of(alloc, b"ab")?;
    assert!(rt; text < Text::of(alloc, b"b")?);
    assert!(rt; text.clone()? == text);
    let mut items = Sequence::from_vec(vec![in alloc; 1, 2]?);
    items.push(3)?;
    assert_eq!(rt; items.len(), 3);
    assert_eq!(rt; items.replace(0, 5), 1);
    assert!(rt; items.into_vec().as_slice() == [5, 2, 3].as_slice());
    OpenGate.pass(1);
    Ok(())
}
