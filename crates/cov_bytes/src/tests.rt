use super::*;
use std::test::Fail;

const NUMBERS: [(u32, &[u8]); 6] = [
    (0, &[0]),
    (127, &[0x7f]),
    (128, &[0x80, 1]),
    (624485, &[0xe5, 0x8e, 0x26]),
    (0x1000_0000, &[0x80, 0x80, 0x80, 0x80, 1]),
    (0xffff_ffff, &[0xff, 0xff, 0xff, 0xff, 0x0f]),
];

const READ: [(&[u8], Result<u32, CutFault>); 6] = [
    (&[0xe5, 0x8e, 0xa6, 0], Ok(624485)),
    (
        &[0x80, 0x80, 0x80, 0x80, 0x80, 0x80, 0x80, 0x80, 0x80, 0, 7],
        Ok(0),
    ),
    (
        &[
            0x80, 0x80, 0x80, 0x80, 0x80, 0x80, 0x80, 0x80, 0x80, 0x80, 0,
        ],
        Err(CutFault::NumberTooLong(0)),
    ),
    (
        &[0x80, 0x80, 0x80, 0x80, 0x10],
        Err(CutFault::NumberTooLarge(0)),
    ),
    (&[0xe5, 0x8e], Err(CutFault::Short(0))),
    (&[], Err(CutFault::Short(0))),
];

#[test]
fn spells_numbers(rt: HostRuntime) -> Result<(), Fail> {
    for (n, spelling) in NUMBERS {
        let mut bytes = Bytes::new(rt.alloc());
        bytes.push_uleb(n)?;
        assert_eq!(rt; bytes.as_slice(), spelling, "at {n}");
        assert_eq!(rt; Cursor::new(spelling).uleb(), Ok(n), "at {n}");
    }
    for (spelling, want) in READ {
        assert_eq!(rt; Cursor::new(spelling).uleb(), want, "at {spelling:?}");
    }
    Ok(())
}

#[test]
fn reads_what_was_written(rt: HostRuntime) -> Result<(), Fail> {
    let mut bytes = Bytes::new(rt.alloc());
    bytes.push(b"ab")?;
    bytes.push_u32(0x0102_0304)?;
    bytes.push_u64(5)?;
    bytes.push(&[9; 16])?;
    assert_eq!(rt; bytes.len(), 30);
    bytes.pad4()?;
    bytes.pad4()?;
    assert_eq!(rt; bytes.len(), 32);
    let bytes = bytes.into_vec();
    let mut cursor = Cursor::new(&bytes);
    assert_eq!(rt; cursor.u8(), Ok(b'a'));
    assert_eq!(rt; cursor.take(1), Ok(b"b".as_slice()));
    assert_eq!(rt; cursor.u32_le(), Ok(0x0102_0304));
    assert_eq!(rt; cursor.u64_le(), Ok(5));
    assert_eq!(rt; cursor.take16(), Ok([9; 16]));
    assert_eq!(rt; cursor.at(), 30);
    assert_eq!(rt; cursor.take(3), Err(CutFault::Short(30)));
    assert_eq!(rt; cursor.seek(2), Ok(()));
    assert_eq!(rt; cursor.u32_be(), Ok(0x0403_0201));
    assert_eq!(rt; cursor.seek(33), Err(CutFault::Short(33)));
    assert_eq!(rt; cursor.seek(32), Ok(()));
    assert_eq!(rt; cursor.u8(), Err(CutFault::Short(32)));
    Ok(())
}

const WIDE: TextLimits = TextLimits {
    strings: 9,
    one: 9,
    all: 9,
};

#[test]
fn numbers_texts(rt: HostRuntime) -> Result<(), Fail> {
    let mut table = StringTable::new(rt.alloc());
    assert_eq!(rt; table.intern(b"main")?, 0);
    assert_eq!(rt; table.intern(b"")?, 1);
    assert_eq!(rt; table.intern(b"main")?, 0);
    assert_eq!(rt; table.intern(b"m")?, 2);
    let bytes = table.write(rt.alloc())?;
    assert_eq!(rt; bytes.as_slice(), b"\x03\x04main\x00\x01m".as_slice());
    let mut cursor = Cursor::new(&bytes);
    let read = StringTable::read(rt.alloc(), &mut cursor, &WIDE)
        .ok()
        .ok_or("no table")?;
    assert_eq!(rt; cursor.at(), bytes.len());
    assert_eq!(rt; read.len(), 3);
    assert_eq!(rt; read.get(2), Some(b"m".as_slice()));
    assert_eq!(rt; read.get(3), None);
    Ok(())
}

#[test]
fn numbers_the_first_of_equal_texts(rt: HostRuntime) -> Result<(), Fail> {
    let mut cursor = Cursor::new(b"\x04\x01a\x01b\x01b\x01a");
    let mut table = StringTable::read(rt.alloc(), &mut cursor, &WIDE)
        .ok()
        .ok_or("no table")?;
    for (text, want) in [("b", 1), ("c", 4), ("a", 0), ("c", 4)] {
        assert!(rt; table.len() < 9);
        assert_eq!(rt; table.intern(text.as_bytes())?, want, "at {text}");
    }
    assert_eq!(rt; table.len(), 5);
    assert_eq!(rt; table.get(3), Some(b"a".as_slice()));
    Ok(())
}

const FAULTS: [(&[u8], TextLimits, TableFault); 5] = [
    (b"\x02\x01a", WIDE, TableFault::Cut(CutFault::Short(3))),
    (b"\x01\x05abcd", WIDE, TableFault::Cut(CutFault::Short(2))),
    (b"\x0a", WIDE, TableFault::Limit(WhichText::Strings)),
    (b"\x01\x0a", WIDE, TableFault::Limit(WhichText::NameBytes)),
    (
        b"\x02\x05abcde\x05",
        WIDE,
        TableFault::Limit(WhichText::StringBytes),
    ),
];

#[test]
fn refuses_tables(rt: HostRuntime) -> Result<(), Fail> {
    for (bytes, limits, want) in FAULTS {
        let mut cursor = Cursor::new(bytes);
        match StringTable::read(rt.alloc(), &mut cursor, &limits) {
            Ok(_) => return Err(Fail::from("a table")),
            Err(fault) => assert_eq!(rt; fault, want, "at {bytes:?}"),
        }
    }
    Ok(())
}
