//! The dump of a pod whose files are given byte for byte.
ghost use Rattle.std.specs.Prelude.{IfOk};
ghost use Rattle.std.specs.Str.{IsUtf8};
ghost use Rattle.cov_pods.specs.Paths.{HasTextPaths};

use super::filter_of;
use crate::debugdump;
use cov_outside::{MemoryFiles, NoMemory, Sequence, Text};
use cov_pods::{Pod, decode_pod};
use std::alloc::Global;
use std::test::Fail;

/// A meta file of one function with three units, in mode set.
const META: &[u8; 183] =
    b"\x00cvm\x01\x00\x00\x00\xb7\x00\x00\x00\x00\x00\x00\x00\x01\x00\x00\x00\x00\x00\x00\x00\
\x11\x11\x11\x11\x11\x11\x11\x11\x11\x11\x11\x11\x11\x11\x11\x11H\x00\x00\x00\x02\x00\x00\x00\x01\x01\x00\x00\x00\x00\x00\x00\
J\x00\x00\x00\x00\x00\x00\x00m\x00\x00\x00\x00\x00\x00\x00\x01\x00m\x00\x00\x00\x00\x00\x00\x00\x01\x00\x00\x00\x01\x00\x00\x00\
\"\"\"\"\"\"\"\"\"\"\"\"\"\"\"\"\x00\x00\x00\x00\x03\x00\x00\x00\x01\x00\x00\x00Z\x00\x00\x00\
\x03\x04main\x0dexample.com/m\x15example.com/m/main.go\x03\x00\x02\x05\x0d\x07\x0b\x02\x07\x0b\x09\x03\x01\x09\x08\x0b\x03\x01\x00";

/// Its counter file in ULEB128: counts 1, 1, 0.
const SHORT_NUMBERS: &[u8; 74] =
    b"\x00cwm\x01\x00\x00\x00\x11\x11\x11\x11\x11\x11\x11\x11\x11\x11\x11\x11\x11\x11\x11\x11\
\x02\x00\x00\x00\x00\x00\x00\x00\x01\x00\x00\x00\x00\x00\x00\x00\x01\x00\x00\x00\x03\x00\x00\x00\x00\x00\x00\x00\
\x03\x00\x00\x01\x01\x00\x00cwm\x00\x00\x00\x00\x01\x00\x00\x00\x00\x00\x00\x00";

/// The same entry in numbers of four bytes, the highest byte first.
const RAW_NUMBERS: &[u8; 92] =
    b"\x00cwm\x01\x00\x00\x00\x11\x11\x11\x11\x11\x11\x11\x11\x11\x11\x11\x11\x11\x11\x11\x11\
\x01\x01\x00\x00\x00\x00\x00\x00\x01\x00\x00\x00\x00\x00\x00\x00\x01\x00\x00\x00\x03\x00\x00\x00\x00\x00\x00\x00\
\x00\x00\x00\x03\x00\x00\x00\x00\x00\x00\x00\x00\x00\x00\x00\x01\x00\x00\x00\x01\x00\x00\x00\x00\
\x00cwm\x00\x00\x00\x00\x01\x00\x00\x00\x00\x00\x00\x00";

/// The same entry in ULEB128, with the arguments that a run without arguments records.
const WITH_ARGUMENTS: &[u8; 122] =
    b"\x00cwm\x01\x00\x00\x00\x11\x11\x11\x11\x11\x11\x11\x11\x11\x11\x11\x11\x11\x11\x11\x11\
\x02\x00\x00\x00\x00\x00\x00\x00\x01\x00\x00\x00\x00\x00\x00\x00\x2b\x00\x00\x00\x09\x00\x00\x00\
\x09\x00\x04argc\x011\x05argv0\x03./m\x04GOOS\x05linux\x06GOARCH\x05amd64\x04\x01\x02\x03\x04\x05\x06\x07\x08\
\x03\x00\x00\x01\x01\x00\x00cwm\x00\x00\x00\x00\x01\x00\x00\x00\x00\x00\x00\x00";

const DUMP: &[u8] = b"pod 11111111111111111111111111111111 mode set\n\
package 0 main example.com/m example.com/m\n\
function 0 main example.com/m/main.go 0\n\
unit 0 5.13,7.11 2 1\n\
unit 1 7.11,9.3 1 1\n\
unit 2 9.8,11.3 1 0\n\
counters covcounters.11111111111111111111111111111111.1.1 flavour 2 functions 1 args 0\n\
counters covcounters.11111111111111111111111111111111.1.2 flavour 1 functions 1 args 0\n\
counters covcounters.11111111111111111111111111111111.1.3 flavour 2 functions 1 args 4\n";

fn text(alloc: Global, path: &str) -> Result<Text, NoMemory>
    ensures { IfOk result (λ text. IsUtf8 text) }
{
    Text::of(alloc, path.as_bytes())
}

/// The pod of the meta file and the three counter files.
fn whole_pod(alloc: Global) -> Result<Pod, NoMemory>
    ensures { IfOk result (λ pod. HasTextPaths pod) }
{
    let mut counters = Sequence::new(alloc);
    for path in [
        "a/covcounters.11111111111111111111111111111111.1.1",
        "a/covcounters.11111111111111111111111111111111.1.2",
        "a/b/covcounters.11111111111111111111111111111111.1.3",
    ] {
        counters.push(text(alloc, path)?)?;
    }
    Ok(Pod {
        hash: text(alloc, "11111111111111111111111111111111")?,
        meta: text(alloc, "a/covmeta.11111111111111111111111111111111")?,
        counters,
    })
}

fn all_files(alloc: Global) -> Result<MemoryFiles, NoMemory> {
    let mut files = MemoryFiles::new(alloc, &[])?;
    files.add("a/covmeta.11111111111111111111111111111111", META)?;
    files.add(
        "a/covcounters.11111111111111111111111111111111.1.1",
        SHORT_NUMBERS,
    )?;
    files.add(
        "a/covcounters.11111111111111111111111111111111.1.2",
        RAW_NUMBERS,
    )?;
    files.add(
        "a/b/covcounters.11111111111111111111111111111111.1.3",
        WITH_ARGUMENTS,
    )?;
    Ok(files)
}

#[test]
fn dumps_counter_files(rt: HostRuntime) -> Result<(), Fail> {
    let alloc = rt.alloc();
    let mut files = all_files(alloc)?;
    let mut pods = Vec::new(alloc);
    pods.push(decode_pod(alloc, &mut files, &whole_pod(alloc)?, None)?)?;
    let dump = debugdump(alloc, &pods, &filter_of(alloc, &[])?)?;
    assert!(rt; dump.as_slice() == DUMP);
    Ok(())
}
