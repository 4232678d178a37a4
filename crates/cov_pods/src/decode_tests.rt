ghost use Rattle.std.specs.Prelude.{◌≤◌, IfOk};
ghost use Rattle.std.specs.Str.{IsUtf8};
ghost use Rattle.cov_pods.specs.Paths.{HasTextPaths};

use super::*;
use cov_counter::{Entry, write_counters};
use cov_outside::{DataKind, MemoryFiles, Mode, NoMemory, Sequence, Text};
use std::alloc::Global;
use std::process::Abort;
use std::test::Fail;

/// A meta file of one function with three units, in mode set.
const META: &[u8; 183] =
    b"\x00cvm\x01\x00\x00\x00\xb7\x00\x00\x00\x00\x00\x00\x00\x01\x00\x00\x00\x00\x00\x00\x00\
\x11\x11\x11\x11\x11\x11\x11\x11\x11\x11\x11\x11\x11\x11\x11\x11H\x00\x00\x00\x02\x00\x00\x00\x01\x01\x00\x00\x00\x00\x00\x00\
J\x00\x00\x00\x00\x00\x00\x00m\x00\x00\x00\x00\x00\x00\x00\x01\x00m\x00\x00\x00\x00\x00\x00\x00\x01\x00\x00\x00\x01\x00\x00\x00\
\"\"\"\"\"\"\"\"\"\"\"\"\"\"\"\"\x00\x00\x00\x00\x03\x00\x00\x00\x01\x00\x00\x00Z\x00\x00\x00\
\x03\x04main\x0dexample.com/m\x15example.com/m/main.go\x03\x00\x02\x05\x0d\x07\x0b\x02\x07\x0b\x09\x03\x01\x09\x08\x0b\x03\x01\x00";

/// Its counter file: counts 1, 1, 0.
const COUNTERS: &[u8; 74] =
    b"\x00cwm\x01\x00\x00\x00\x11\x11\x11\x11\x11\x11\x11\x11\x11\x11\x11\x11\x11\x11\x11\x11\
\x02\x00\x00\x00\x00\x00\x00\x00\x01\x00\x00\x00\x00\x00\x00\x00\x01\x00\x00\x00\x03\x00\x00\x00\x00\x00\x00\x00\
\x03\x00\x00\x01\x01\x00\x00cwm\x00\x00\x00\x00\x01\x00\x00\x00\x00\x00\x00\x00";

/// The offset of the mode in a meta file.
const MODE: usize = 48;

const HASH: [u8; 16] = [0x11; 16];

/// Bytes with one of them replaced.
fn edited(alloc: Global, bytes: &[u8], at: usize, byte: u8) -> Result<Vec<u8>, NoMemory> {
    let mut copy = Vec::from_slice(alloc, bytes)?;
    if let Some(place) = copy.get_mut(at) {
        *place = byte;
    }
    Ok(copy)
}

fn text(alloc: Global, path: &str) -> Result<Text, NoMemory>
    ensures { IfOk result (λ text. IsUtf8 text) }
{
    Text::of(alloc, path.as_bytes())
}

/// A pod of a meta file and two counter files.
fn pod(alloc: Global) -> Result<Pod, NoMemory>
    ensures { IfOk result (λ pod. HasTextPaths pod) }
{
    let mut counters = Sequence::new(alloc);
    counters.push(text(alloc, "c/first")?)?;
    counters.push(text(alloc, "c/second")?)?;
    Ok(Pod {
        hash: text(alloc, "11111111111111111111111111111111")?,
        meta: text(alloc, "c/meta")?,
        counters,
    })
}

/// The files of the pod, as far as they are given.
fn files(
    alloc: Global,
    meta: &[u8],
    first: &[u8],
    second: Option<&[u8]>,
) -> Result<MemoryFiles, NoMemory> {
    let mut files = MemoryFiles::new(alloc, &[])?;
    files.add("c/meta", meta)?;
    files.add("c/first", first)?;
    if let Some(second) = second {
        files.add("c/second", second)?;
    }
    Ok(files)
}

fn written(alloc: Global, counts: [u32; 3]) -> Result<Vec<u8>, NoMemory> {
    let entry = Entry {
        package: 0,
        function: 0,
        counts: Sequence::from_vec(Vec::from_slice(alloc, &counts)?),
    };
    write_counters(alloc, &HASH, &[entry])
}

/// The counts of the one function.
fn counts_of(rt: &impl Abort, pod: &DecodedPod) -> [u32; 3] {
    let packages = pod.counts.as_slice();
    assert_eq!(rt; packages.len(), 1);
    let functions = packages[0].as_slice();
    assert_eq!(rt; functions.len(), 1);
    let units = functions[0].as_slice();
    assert_eq!(rt; units.len(), 3);
    [units[0], units[1], units[2]]
}

/// Where the first counter file is wrong, and how.
fn fault_of_first(answer: Result<DecodedPod, PodFault>) -> Option<(u64, DataKind)> {
    match answer {
        Err(PodFault::Data { path, offset, kind }) => is_path(&path, b"c/first").then_some((
            offset, kind,
        )),
        _ => None,
    }
}

fn other_mode(answer: Result<DecodedPod, PodFault>) -> Option<Mode> {
    match answer {
        Err(PodFault::Mode(mode)) => Some(mode),
        _ => None,
    }
}

fn misses_second(answer: Result<DecodedPod, PodFault>) -> bool {
    match answer {
        Err(PodFault::Missing { path }) => is_path(&path, b"c/second"),
        _ => false,
    }
}

fn is_path(path: &Text, bytes: &[u8]) -> bool {
    path.bytes() == bytes
}

#[test]
fn counts_add_up_to_the_greatest(rt: HostRuntime) -> Result<(), Fail> {
    let alloc = rt.alloc();
    for (mode, first, second, counts) in [
        (1, [1, 1, 0], [0, 7, 0], [1, 1, 0]),
        (2, [3, 0, 5], [1, 2, 0], [4, 2, 5]),
        (3, [4_294_967_295, 0, 5], [1, 2, 0], [4_294_967_295, 2, 5]),
    ] {
        let meta = edited(alloc, META, MODE, mode)?;
        let first = written(alloc, first)?;
        let second = written(alloc, second)?;
        let mut files = files(alloc, &meta, &first, Some(&second))?;
        let pod = decode_pod(alloc, &mut files, &pod(alloc)?, None)?;
        assert_eq!(rt; counts_of(&rt, &pod), counts);
        assert_eq!(rt; pod.heads.len(), 2);
        assert!(rt; pod.bytes.as_slice() == meta.as_slice());
    }
    Ok(())
}

#[test]
fn a_counter_file_is_refused_where_it_is_wrong(rt: HostRuntime) -> Result<(), Fail> {
    let alloc = rt.alloc();
    let mut counters = HASH;
    counters[0] = 0x12;
    let differs = DataKind::HashDiffers {
        meta: HASH,
        counters,
    };
    let package = DataKind::BadPackage { index: 1, count: 1 };
    let function = DataKind::BadFunction { index: 1, count: 1 };
    let count = DataKind::BadCount { have: 2, want: 3 };
    // How many bytes are left, the byte that is changed, its new value, and the fault.
    for (left, at, byte, offset, kind) in [
        (31, 0, 0, 26, DataKind::Short),
        (48, 0, 0, 48, DataKind::Short),
        (73, 0, 0, 58, DataKind::Short),
        (74, 52, 2, 52, count),
        (74, 53, 1, 52, package),
        (74, 54, 1, 52, function),
        (74, 8, 0x12, 8, differs),
        (48, 8, 0x12, 48, DataKind::Short),
    ] {
        let cut = &COUNTERS[..COUNTERS.len().min(left)];
        let first = edited(alloc, cut, at, byte)?;
        let mut files = files(alloc, META, &first, Some(COUNTERS))?;
        let answer = decode_pod(alloc, &mut files, &pod(alloc)?, Some(Mode::Set));
        assert_eq!(rt; fault_of_first(answer), Some((offset, kind)));
    }
    Ok(())
}

#[test]
fn other_refusals(rt: HostRuntime) -> Result<(), Fail> {
    let alloc = rt.alloc();
    let mut files = files(alloc, META, COUNTERS, None)?;
    let answer = decode_pod(alloc, &mut files, &pod(alloc)?, Some(Mode::Count));
    assert_eq!(rt; other_mode(answer), Some(Mode::Set));
    let answer = decode_pod(alloc, &mut files, &pod(alloc)?, None);
    assert!(rt; misses_second(answer));
    Ok(())
}
