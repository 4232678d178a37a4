ghost use Rattle.std.specs.Prelude.{IfOk};
ghost use Rattle.cov_meta.specs.Written.{KeepsLimits};

use super::write_meta;
use crate::meta::{Meta, MetaFunction, MetaPackage, MetaUnit, Place2};
use crate::read::read_meta;
use cov_outside::{Mode, NoMemory, Sequence, Text};
use std::alloc::Global;
use std::test::Fail;

/// MD5 of the package's path, name and module path, its function's name and file, 15 numbers and a flag.
const BLOB_HASH: &[u8] = b"\x5f\xac\xe0\x4a\xed\xf9\x01\x33\x9d\x0a\x93\xd5\x08\x95\x1b\x13";

/// MD5 of that hash, `set` and `perblock`.
const FILE_HASH: &[u8] = b"\xab\x67\xbb\x8c\x50\x83\x6a\xc6\xa0\x5b\xb0\x10\x54\x78\xfd\x5c";

/// The fields before the hash.
const BEFORE: [&[u8]; 4] = [
    b"\x00\x63\x76\x6d",
    b"\x01\x00\x00\x00",
    b"\xb7\x00\x00\x00\x00\x00\x00\x00",
    b"\x01\x00\x00\x00\x00\x00\x00\x00",
];

/// The fields between the hash of the file and that of the blob.
const BETWEEN: [&[u8]; 12] = [
    b"\x48\x00\x00\x00",
    b"\x02\x00\x00\x00",
    b"\x01",
    b"\x01",
    b"\x00\x00\x00\x00\x00\x00",
    b"\x4a\x00\x00\x00\x00\x00\x00\x00",
    b"\x6d\x00\x00\x00\x00\x00\x00\x00",
    b"\x01\x00",
    b"\x6d\x00\x00\x00",
    b"\x00\x00\x00\x00",
    b"\x01\x00\x00\x00",
    b"\x01\x00\x00\x00",
];

/// The fields behind the hash of the blob.
const BEHIND: [&[u8]; 13] = [
    b"\x00\x00\x00\x00",
    b"\x03\x00\x00\x00",
    b"\x01\x00\x00\x00",
    b"\x5a\x00\x00\x00",
    b"\x03",
    b"\x04main",
    b"\x0dexample.com/m",
    b"\x15example.com/m/main.go",
    b"\x03\x00\x02",
    b"\x05\x0d\x07\x0b\x02",
    b"\x07\x0b\x09\x03\x01",
    b"\x09\x08\x0b\x03\x01",
    b"\x00",
];

fn unit(line: u32, column: u32, end_line: u32, end_column: u32, statements: u32) -> MetaUnit {
    MetaUnit {
        start: Place2 { line, column },
        end: Place2 {
            line: end_line,
            column: end_column,
        },
        statements,
    }
}

/// One package with one function of three units.
fn one_function(alloc: Global) -> Result<Meta, NoMemory>
    ensures { IfOk result (λ meta. KeepsLimits meta) }
{
    let units = vec![in alloc;
        unit(5, 13, 7, 11, 2),
        unit(7, 11, 9, 3, 1),
        unit(9, 8, 11, 3, 1),
    ]?;
    let mut functions = Sequence::new(alloc);
    functions.push(MetaFunction {
        name: Text::of(alloc, b"main")?,
        file: Text::of(alloc, b"example.com/m/main.go")?,
        literal: false,
        units: Sequence::from_vec(units),
    })?;
    let mut packages = Sequence::new(alloc);
    packages.push(MetaPackage {
        name: Text::of(alloc, b"main")?,
        path: Text::of(alloc, b"example.com/m")?,
        module: Text::of(alloc, b"example.com/m")?,
        functions,
    })?;
    Ok(Meta {
        mode: Mode::Set,
        packages,
    })
}

#[test]
fn writes_one_function(rt: HostRuntime) -> Result<(), Fail> {
    let meta = one_function(rt.alloc())?;
    let written = write_meta(rt.alloc(), &meta)?;
    let mut want = Vec::new(rt.alloc());
    for field in BEFORE {
        want.extend_from_slice(field)?;
    }
    want.extend_from_slice(FILE_HASH)?;
    for field in BETWEEN {
        want.extend_from_slice(field)?;
    }
    want.extend_from_slice(BLOB_HASH)?;
    for field in BEHIND {
        want.extend_from_slice(field)?;
    }
    assert_eq!(rt; written.bytes.len(), 183);
    assert_eq!(rt; written.bytes.as_slice(), want.as_slice());
    assert_eq!(rt; written.hash.as_slice(), FILE_HASH);
    let file = read_meta(rt.alloc(), &written.bytes)?;
    assert_eq!(rt; file.hash, written.hash);
    assert_eq!(rt; file.meta.mode, Mode::Set);
    assert_eq!(rt; file.meta.packages.len(), 1);
    let package = &file.meta.packages.as_slice()[0];
    assert_eq!(rt; package.module.bytes(), b"example.com/m".as_slice());
    assert_eq!(rt; package.functions.len(), 1);
    let function = &package.functions.as_slice()[0];
    assert_eq!(rt; function.file.bytes(), b"example.com/m/main.go".as_slice());
    assert_eq!(rt;
        function.units.as_slice(),
        [
            unit(5, 13, 7, 11, 2),
            unit(7, 11, 9, 3, 1),
            unit(9, 8, 11, 3, 1)
        ]
        .as_slice()
    );
    Ok(())
}
