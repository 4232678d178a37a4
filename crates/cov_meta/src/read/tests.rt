use super::read_meta;
use crate::fault::MetaFault;
use crate::meta::{MetaUnit, Place2};
use cov_outside::{DataKind, Mode, Which};
use std::alloc::{AllocError, Global};
use std::test::Fail;

/// A meta file of one package with one function of three units, field by field: 183 bytes.
const FIELDS: [&[u8]; 33] = [
    b"\x00\x63\x76\x6d",
    b"\x01\x00\x00\x00",
    b"\xb7\x00\x00\x00\x00\x00\x00\x00",
    b"\x01\x00\x00\x00\x00\x00\x00\x00",
    b"\x11\x11\x11\x11\x11\x11\x11\x11\x11\x11\x11\x11\x11\x11\x11\x11",
    b"\x48\x00\x00\x00",
    b"\x02\x00\x00\x00",
    b"\x01",
    b"\x01",
    b"\x00\x00\x00\x00\x00\x00",
    b"\x4a\x00\x00\x00\x00\x00\x00\x00",
    b"\x6d\x00\x00\x00\x00\x00\x00\x00",
    b"\x01\x00",
    b"\x6d\x00\x00\x00",
    b"\x00\x00\x00\x00",
    b"\x01\x00\x00\x00",
    b"\x01\x00\x00\x00",
    b"\x22\x22\x22\x22\x22\x22\x22\x22\x22\x22\x22\x22\x22\x22\x22\x22",
    b"\x00\x00\x00\x00",
    b"\x03\x00\x00\x00",
    b"\x01\x00\x00\x00",
    b"\x5a\x00\x00\x00",
    b"\x03",
    b"\x04main",
    b"\x0dexample.com/m",
    b"\x15example.com/m/main.go",
    b"\x03",
    b"\x00",
    b"\x02",
    b"\x05\x0d\x07\x0b\x02",
    b"\x07\x0b\x09\x03\x01",
    b"\x09\x08\x0b\x03\x01",
    b"\x00",
];

// Places in FIELDS.
const MAGIC: usize = 0;

const VERSION: usize = 1;

const ENTRIES: usize = 3;

const MODE: usize = 7;

const GRANULARITY: usize = 8;

const BLOB_OFFSET: usize = 10;

const BLOB_LENGTH: usize = 11;

const OWN_LENGTH: usize = 13;

const NAME: usize = 14;

const PATH: usize = 15;

const MODULE: usize = 16;

const FUNCTIONS: usize = 20;

const RECORD_OFFSET: usize = 21;

const STRINGS: usize = 22;

const FIRST_TEXT: usize = 23;

const UNITS: usize = 26;

const FUNCTION_NAME: usize = 27;

const FUNCTION_FILE: usize = 28;

const LITERAL: usize = 32;

/// The file with some fields written otherwise.
fn written(alloc: Global, changes: &[(usize, &[u8])]) -> Result<Vec<u8>, AllocError> {
    let mut bytes = Vec::new(alloc);
    for (i, field) in FIELDS.iter().enumerate() {
        match changes.iter().find(|change| change.0 == i) {
            Some(change) => bytes.extend_from_slice(change.1)?,
            None => bytes.extend_from_slice(field)?,
        }
    }
    Ok(bytes)
}

fn unit(line: u32, column: u32, end_line: u32, end_column: u32, statements: u32) -> MetaUnit {
    MetaUnit {
        start: Place2 { line, column },
        end: Place2 {
            line: end_line,
            column: end_column,
        },
        statements,
    }
}

fn short(offset: u64) -> MetaFault {
    at(offset, DataKind::Short)
}

fn at(offset: u64, kind: DataKind) -> MetaFault {
    MetaFault::At { offset, kind }
}

#[test]
fn one_function(rt: HostRuntime) -> Result<(), Fail> {
    let bytes = written(rt.alloc(), &[])?;
    assert_eq!(rt; bytes.len(), 183);
    let file = read_meta(rt.alloc(), &bytes)?;
    assert_eq!(rt; file.hash, [0x11; 16]);
    assert_eq!(rt; file.meta.mode, Mode::Set);
    assert_eq!(rt; file.meta.packages.len(), 1);
    for package in file.meta.packages.as_slice() {
        assert_eq!(rt; package.name.bytes(), b"main".as_slice());
        assert_eq!(rt; package.path.bytes(), b"example.com/m".as_slice());
        assert_eq!(rt; package.module.bytes(), b"example.com/m".as_slice());
        assert_eq!(rt; package.functions.len(), 1);
        for function in package.functions.as_slice() {
            assert_eq!(rt; function.name.bytes(), b"main".as_slice());
            assert_eq!(rt; function.file.bytes(), b"example.com/m/main.go".as_slice());
            assert!(rt; !function.literal);
            let units = [
                unit(5, 13, 7, 11, 2),
                unit(7, 11, 9, 3, 1),
                unit(9, 8, 11, 3, 1),
            ];
            assert_eq!(rt; function.units.as_slice(), units.as_slice());
        }
    }
    Ok(())
}

/// Where a file that is cut to so many bytes is found wanting.
fn cut_fault(len: usize) -> MetaFault {
    let starts = [0, 4, 8, 16, 24, 40, 44, 48, 49, 50, 56, 64];
    if len >= 72 {
        return at(56, DataKind::BadRange);
    }
    let mut field = 0;
    for start in starts {
        if start <= len {
            field = start;
        }
    }
    short(field as u64)
}

#[test]
fn every_cut(rt: HostRuntime) -> Result<(), Fail> {
    let bytes = written(rt.alloc(), &[])?;
    for len in 0..bytes.len() {
        let fault = read_meta(rt.alloc(), &bytes[..len]).err();
        assert_eq!(rt; fault, Some(cut_fault(len)), "cut to {len}");
    }
    Ok(())
}

/// One change of the file and its fault.
#[derive(Drop)]
struct Row(&'static [(usize, &'static [u8])], MetaFault);

#[test]
fn header_faults(rt: HostRuntime) -> Result<(), Fail> {
    let rows = [
        Row(&[(MAGIC, b"\x00\x63\x77\x6d")], at(0, DataKind::BadMagic)),
        Row(
            &[(VERSION, b"\x02\x00\x00\x00")],
            at(4, DataKind::BadVersion),
        ),
        Row(
            &[(ENTRIES, b"\xe9\x03\x00\x00\x00\x00\x00\x00")],
            MetaFault::Limit(Which::Packages),
        ),
        Row(
            &[(ENTRIES, b"\xe8\x03\x00\x00\x00\x00\x00\x00")],
            short(176),
        ),
        Row(&[(MODE, b"\x00")], at(48, DataKind::BadMode)),
        Row(&[(MODE, b"\x04")], at(48, DataKind::RegOnlyMode)),
        Row(&[(MODE, b"\x05")], at(48, DataKind::TestMainMode)),
        Row(&[(MODE, b"\x06")], at(48, DataKind::BadMode)),
        Row(
            &[(MODE, b"\x00"), (GRANULARITY, b"\x03")],
            at(48, DataKind::BadMode),
        ),
        Row(&[(GRANULARITY, b"\x02")], at(49, DataKind::PerFunction)),
        Row(&[(GRANULARITY, b"\x03")], at(49, DataKind::BadGranularity)),
        Row(
            &[(BLOB_OFFSET, b"\xff\xff\xff\xff\xff\xff\xff\xff")],
            at(56, DataKind::BadRange),
        ),
        Row(
            &[(BLOB_LENGTH, b"\xff\xff\xff\xff\xff\xff\xff\xff")],
            at(56, DataKind::BadRange),
        ),
        Row(
            &[(BLOB_LENGTH, b"\x6e\x00\x00\x00\x00\x00\x00\x00")],
            at(56, DataKind::BadRange),
        ),
    ];
    for row in &rows {
        let bytes = written(rt.alloc(), row.0)?;
        assert_eq!(rt; read_meta(rt.alloc(), &bytes).err(), Some(row.1));
    }
    Ok(())
}

#[test]
fn blob_faults(rt: HostRuntime) -> Result<(), Fail> {
    let none = |index| DataKind::BadString { index, count: 3 };
    let rows = [
        // The blob ends one byte too early.
        Row(
            &[(BLOB_LENGTH, b"\x6c\x00\x00\x00\x00\x00\x00\x00")],
            short(182),
        ),
        // The whole file as the blob: its number of functions is 72.
        Row(
            &[
                (BLOB_OFFSET, b"\x00\x00\x00\x00\x00\x00\x00\x00"),
                (BLOB_LENGTH, b"\xb7\x00\x00\x00\x00\x00\x00\x00"),
            ],
            short(180),
        ),
        Row(&[(NAME, b"\x03\x00\x00\x00")], at(78, none(3))),
        Row(&[(PATH, b"\xff\xff\xff\xff")], at(82, none(4294967295))),
        Row(&[(MODULE, b"\x04\x00\x00\x00")], at(86, none(4))),
        Row(
            &[(FUNCTIONS, b"\x01\x00\x10\x00")],
            MetaFault::Limit(Which::Functions),
        ),
        Row(&[(RECORD_OFFSET, b"\x6e\x00\x00\x00")], short(118)),
        Row(&[(RECORD_OFFSET, b"\x6d\x00\x00\x00")], short(183)),
        Row(
            &[(STRINGS, b"\x81\x80\x40")],
            MetaFault::Limit(Which::Strings),
        ),
        Row(
            &[(FIRST_TEXT, b"\x81\x10ain")],
            MetaFault::Limit(Which::NameBytes),
        ),
        Row(&[(FUNCTION_NAME, b"\x03")], at(165, none(3))),
        Row(&[(FUNCTION_FILE, b"\x03")], at(166, none(3))),
        Row(
            &[(UNITS, b"\x80\x80\x80\x80\x80\x80\x80\x80\x80\x80")],
            at(164, DataKind::NumberTooLong),
        ),
        Row(
            &[(UNITS, b"\x80\x80\x80\x80\x10")],
            at(164, DataKind::NumberTooLarge),
        ),
        Row(&[(UNITS, b"\x81\x80\x40")], MetaFault::Limit(Which::Units)),
    ];
    for row in &rows {
        let bytes = written(rt.alloc(), row.0)?;
        assert_eq!(rt; read_meta(rt.alloc(), &bytes).err(), Some(row.1));
    }
    Ok(())
}

/// A record that announces many units and ends behind its two texts.
#[test]
fn many_units(rt: HostRuntime) -> Result<(), Fail> {
    let rows: [(&[u8], &[u8], usize, MetaFault); 2] = [
        (b"\x80\x80\x40", b"\x5f\x00\x00\x00", 169, short(169)),
        (
            b"\xff\xff\xff\xff\x0f",
            b"\x61\x00\x00\x00",
            171,
            MetaFault::Limit(Which::Units),
        ),
    ];
    for (units, length, len, fault) in rows {
        let wide = [length, b"\x00\x00\x00\x00"].concat(rt.alloc())?;
        let changes = [
            (UNITS, units),
            (BLOB_LENGTH, wide.as_slice()),
            (OWN_LENGTH, length),
        ];
        let mut bytes = written(rt.alloc(), &changes)?;
        bytes.truncate(len);
        assert_eq!(rt; bytes.len(), len);
        assert_eq!(rt; read_meta(rt.alloc(), &bytes).err(), Some(fault));
    }
    Ok(())
}

/// Two entries may name one blob.
#[test]
fn one_blob_twice(rt: HostRuntime) -> Result<(), Fail> {
    let changes: [(usize, &[u8]); 3] = [
        (ENTRIES, b"\x02\x00\x00\x00\x00\x00\x00\x00"),
        (
            BLOB_OFFSET,
            b"\x5a\x00\x00\x00\x00\x00\x00\x00\x5a\x00\x00\x00\x00\x00\x00\x00",
        ),
        (
            BLOB_LENGTH,
            b"\x6d\x00\x00\x00\x00\x00\x00\x00\x6d\x00\x00\x00\x00\x00\x00\x00",
        ),
    ];
    let bytes = written(rt.alloc(), &changes)?;
    let file = read_meta(rt.alloc(), &bytes)?;
    assert_eq!(rt; file.meta.packages.len(), 2);
    for package in file.meta.packages.as_slice() {
        assert_eq!(rt; package.name.bytes(), b"main".as_slice());
        assert_eq!(rt; package.functions.len(), 1);
    }
    Ok(())
}

/// Other values that are accepted.
#[test]
fn accepted(rt: HostRuntime) -> Result<(), Fail> {
    let rows: [(&[u8], &[u8], Mode, bool); 3] = [
        (b"\x02", b"\x01", Mode::Count, true),
        (b"\x03", b"\x00", Mode::Atomic, false),
        (b"\x01", b"\x7f", Mode::Set, true),
    ];
    for (mode_byte, flag, mode, literal) in rows {
        let bytes = written(rt.alloc(), &[(MODE, mode_byte), (LITERAL, flag)])?;
        let file = read_meta(rt.alloc(), &bytes)?;
        assert_eq!(rt; file.meta.mode, mode);
        for package in file.meta.packages.as_slice() {
            for function in package.functions.as_slice() {
                assert_eq!(rt; function.literal, literal);
            }
        }
    }
    Ok(())
}
