ghost use Rattle.std.specs.Prelude.{◌≤◌, length, IfOk};

use super::*;
use cov_outside::{DataKind, MemoryFiles, NoMemory, Sequence, Which};
use std::alloc::Global;
use std::test::Fail;

/// One entry for function 0 of package 0, with the counts 1, 1 and 0.
const EXAMPLE: [u8; 74] = [
    0, 0x63, 0x77, 0x6d, 1, 0, 0, 0, 0x11, 0x11, 0x11, 0x11, 0x11, 0x11, 0x11, 0x11, 0x11, 0x11,
    0x11, 0x11, 0x11, 0x11, 0x11, 0x11, 2, 0, 0, 0, 0, 0, 0, 0, 1, 0, 0, 0, 0, 0, 0, 0, 1, 0, 0, 0,
    3, 0, 0, 0, 0, 0, 0, 0, 3, 0, 0, 1, 1, 0, 0, 0x63, 0x77, 0x6d, 0, 0, 0, 0, 1, 0, 0, 0, 0, 0, 0,
    0,
];

/// A string table of nine texts, of which the first is empty, and four pairs of them.
const PAIRS: [u8; 52] = [
    9, 0, 4, 0x61, 0x72, 0x67, 0x63, 1, 0x31, 5, 0x61, 0x72, 0x67, 0x76, 0x30, 3, 0x2e, 0x2f, 0x6d,
    4, 0x47, 0x4f, 0x4f, 0x53, 5, 0x6c, 0x69, 0x6e, 0x75, 0x78, 6, 0x47, 0x4f, 0x41, 0x52, 0x43,
    0x48, 5, 0x61, 0x6d, 0x64, 0x36, 0x34, 4, 1, 2, 3, 4, 5, 6, 7, 8,
];

/// The lengths, parts and entries of a second segment, and a footer that counts two.
const TWO_SEGMENTS: [u8; 38] = [
    1, 0, 0, 0, 0, 0, 0, 0, 1, 0, 0, 0, 3, 0, 0, 0, 3, 0, 0, 1, 1, 0, 0, 0x63, 0x77, 0x6d, 0, 0, 0,
    0, 2, 0, 0, 0, 0, 0, 0, 0,
];

/// Some bytes of the example, from an offset on, replaced.
#[derive(Drop)]
struct Edit {
    at: usize,
    cut: usize,
    put: &'static [u8],
}

/// What a file says, its entries one after the other.
#[derive(Drop)]
struct Said {
    head: Head,
    offsets: Vec<u64>,
    numbers: Vec<u32>,
}

fn edited(alloc: Global, edits: &[Edit]) -> Result<Vec<u8>, NoMemory> {
    let mut bytes = Vec::new(alloc);
    let mut at = 0;
    for edit in edits {
        let from = edit.at.min(EXAMPLE.len());
        let start = at.min(from);
        bytes.extend_from_slice(&EXAMPLE[start..from])?;
        bytes.extend_from_slice(edit.put)?;
        at = from.saturating_add(edit.cut);
    }
    bytes.extend_from_slice(&EXAMPLE[at.min(EXAMPLE.len())..])?;
    Ok(bytes)
}

fn keep(said: &mut Said, offset: u64, entry: Entry) -> Result<(), NoMemory> {
    said.offsets.push(offset)?;
    said.numbers.push(entry.package)?;
    said.numbers.push(entry.function)?;
    said.numbers.extend_from_slice(entry.counts.as_slice())?;
    Ok(())
}

fn said_by(alloc: Global, files: &mut MemoryFiles, path: &str) -> Result<Said, CounterFault> {
    let mut reader = CounterReader::start(alloc, files, path)?;
    let head = reader.head();
    let mut said = Said {
        head,
        offsets: Vec::new(alloc),
        numbers: Vec::new(alloc),
    };
    for _ in 0..head.entries {
        match reader.next(alloc)? {
            Some((offset, entry)) => keep(&mut said, offset, entry)?,
            None => return Err(CounterFault::Missing),
        }
    }
    if reader.next(alloc)?.is_some() {
        return Err(CounterFault::Missing);
    }
    reader.finish()?;
    Ok(said)
}

/// The fault of a file with these bytes, or that there is none.
fn fault_of(alloc: Global, bytes: &[u8]) -> Result<Option<CounterFault>, NoMemory> {
    let mut files = MemoryFiles::new(alloc, &[])?;
    files.add("c", bytes)?;
    match said_by(alloc, &mut files, "c") {
        Ok(_) => Ok(None),
        Err(fault) => Ok(Some(fault)),
    }
}

fn at(offset: u64, kind: DataKind) -> Option<CounterFault> {
    Some(CounterFault::At { offset, kind })
}

#[test]
fn the_example_is_read(rt: HostRuntime) -> Result<(), Fail> {
    let alloc = rt.alloc();
    let mut files = MemoryFiles::new(alloc, &[])?;
    files.add("c", &EXAMPLE)?;
    let said = said_by(alloc, &mut files, "c").expect(&rt, "the example");
    let head = Head {
        hash: [0x11; 16],
        flavour: 2,
        big: false,
        entries: 1,
        args: 0,
    };
    assert_eq!(rt; said.head, head);
    assert!(rt; said.offsets.as_slice() == [52].as_slice());
    assert!(rt; said.numbers.as_slice() == [0, 0, 1, 1, 0].as_slice());
    Ok(())
}

fn entry_of(alloc: Global, package: u32, function: u32, counts: &[u32]) -> Result<Entry, NoMemory>
    requires { length counts.now ≤ 1048576 }
    ensures { IfOk result (λ e. length e.counts ≤ 1048576) }
{
    Ok(Entry {
        package,
        function,
        counts: Sequence::from_vec(Vec::from_slice(alloc, counts)?),
    })
}

#[test]
fn the_example_is_written(rt: HostRuntime) -> Result<(), Fail> {
    let alloc = rt.alloc();
    let entry = entry_of(alloc, 0, 0, &[1, 1, 0])?;
    let bytes = write_counters(alloc, &[0x11; 16], &[entry])?;
    assert!(rt; bytes.as_slice() == EXAMPLE.as_slice());
    let none = write_counters(alloc, &[0x11; 16], &[])?;
    assert_eq!(rt; none.len(), 68);
    assert_eq!(rt; fault_of(alloc, &none)?, None);
    Ok(())
}

#[test]
fn what_is_written_is_read(rt: HostRuntime) -> Result<(), Fail> {
    let alloc = rt.alloc();
    let first = entry_of(alloc, 0, 200, &[u32::MAX, 0])?;
    let second = entry_of(alloc, 3, 1, &[128])?;
    let bytes = write_counters(alloc, &[7; 16], &[first, second])?;
    let mut files = MemoryFiles::new(alloc, &[])?;
    files.add("c", &bytes)?;
    let said = said_by(alloc, &mut files, "c").expect(&rt, "what was written");
    assert_eq!(rt; said.head.hash, [7; 16]);
    assert!(rt; said.offsets.as_slice() == [52, 62].as_slice());
    assert!(rt; said.numbers.as_slice() == [0, 200, u32::MAX, 0, 3, 1, 128].as_slice());
    Ok(())
}

#[test]
fn a_cut_file_is_short_at_the_field_that_lacks_bytes(rt: HostRuntime) -> Result<(), Fail> {
    let alloc = rt.alloc();
    for (from, to, offset) in [
        (0, 4, 0),
        (4, 8, 4),
        (8, 24, 8),
        (24, 25, 24),
        (25, 26, 25),
        (26, 32, 26),
        (32, 40, 32),
        (40, 44, 40),
        (44, 48, 44),
        (48, 49, 48),
        (49, 52, 49),
        (52, 53, 52),
        (53, 54, 53),
        (54, 55, 54),
        (55, 56, 55),
        (56, 57, 56),
        (57, 58, 57),
        (58, 74, 58),
    ] {
        for length in from..to {
            let fault = fault_of(alloc, &EXAMPLE[..length.min(74)])?;
            assert_eq!(rt; fault, at(offset, DataKind::Short), "cut to {length}");
        }
    }
    Ok(())
}

#[test]
fn a_broken_rule_is_the_fault_at_its_field(rt: HostRuntime) -> Result<(), Fail> {
    let alloc = rt.alloc();
    let no_string = DataKind::BadString { index: 0, count: 0 };
    let two = DataKind::Segments { count: 2 };
    let cases: [(usize, usize, &'static [u8], Option<CounterFault>); 23] = [
        (0, 1, &[1], at(0, DataKind::BadMagic)),
        (4, 1, &[2], at(4, DataKind::BadVersion)),
        (24, 1, &[0], at(24, DataKind::BadFlavour)),
        (24, 1, &[3], at(24, DataKind::BadFlavour)),
        (25, 1, &[2], at(25, DataKind::BadFlag)),
        (40, 1, &[27], at(48, DataKind::Short)),
        (44, 1, &[26], at(49, DataKind::Short)),
        (48, 1, &[1], at(49, DataKind::Short)),
        (49, 1, &[1], at(50, no_string)),
        (
            52,
            1,
            &[0x80, 0x80, 0x80, 0x80, 0x10],
            at(52, DataKind::NumberTooLarge),
        ),
        (53, 1, &[128; 10], at(53, DataKind::NumberTooLong)),
        (
            52,
            1,
            &[0x81, 0x80, 0x40],
            Some(CounterFault::Limit(Which::Units)),
        ),
        (52, 1, &[0x80, 0x80, 0x40], at(76, DataKind::Short)),
        (52, 1, &[0x83, 0x80, 0], None),
        (58, 0, &[0], None),
        (58, 0, &[0, 0, 0], None),
        (58, 0, &[1], at(58, DataKind::BadPadding)),
        (58, 0, &[0, 1], at(59, DataKind::BadPadding)),
        (58, 0, &[0, 0, 0, 0], at(58, DataKind::Trailing)),
        (58, 1, &[1], at(58, DataKind::BadMagic)),
        (66, 1, &[2], at(66, two)),
        (58, 16, &TWO_SEGMENTS, at(58, DataKind::Trailing)),
        (74, 0, &[0], at(59, DataKind::BadMagic)),
    ];
    for (from, cut, put, want) in cases {
        let bytes = edited(alloc, &[Edit { at: from, cut, put }])?;
        let fault = fault_of(alloc, &bytes)?;
        assert_eq!(rt; fault, want, "at {from}");
    }
    Ok(())
}

/// The example's entry in numbers of 4 bytes.
#[test]
fn raw_numbers_are_read_in_both_orders(rt: HostRuntime) -> Result<(), Fail> {
    let alloc = rt.alloc();
    let big: &'static [u8] = &[
        0, 0, 0, 3, 0, 0, 0, 0, 0, 0, 0, 0, 0, 0, 0, 1, 0, 0, 0, 1, 0, 0, 0, 0,
    ];
    let little: &'static [u8] = &[
        3, 0, 0, 0, 0, 0, 0, 0, 0, 0, 0, 0, 1, 0, 0, 0, 1, 0, 0, 0, 0, 0, 0, 0,
    ];
    let orders: [(bool, &'static [u8], &'static [u8]); 2] = [
        (true, &[1, 1], big),
        (false, &[1, 0], little),
    ];
    for (is_big, flavour, numbers) in orders {
        let bytes = edited(
            alloc,
            &[
                Edit {
                    at: 24,
                    cut: 2,
                    put: flavour,
                },
                Edit {
                    at: 52,
                    cut: 6,
                    put: numbers,
                },
            ],
        )?;
        assert_eq!(rt; bytes.len(), 92);
        let mut files = MemoryFiles::new(alloc, &[])?;
        files.add("c", &bytes)?;
        let said = said_by(alloc, &mut files, "c").expect(&rt, "raw numbers");
        assert_eq!(rt; (said.head.flavour, said.head.big), (1, is_big));
        assert!(rt; said.offsets.as_slice() == [52].as_slice());
        assert!(rt; said.numbers.as_slice() == [0, 0, 1, 1, 0].as_slice());
    }
    Ok(())
}

#[test]
fn pairs_of_strings_are_counted(rt: HostRuntime) -> Result<(), Fail> {
    let alloc = rt.alloc();
    let mut bytes = edited(
        alloc,
        &[
            Edit {
                at: 40,
                cut: 8,
                put: &[43, 0, 0, 0, 9, 0, 0, 0],
            },
            Edit {
                at: 48,
                cut: 4,
                put: &PAIRS,
            },
        ],
    )?;
    let mut files = MemoryFiles::new(alloc, &[])?;
    files.add("c", &bytes)?;
    let said = said_by(alloc, &mut files, "c").expect(&rt, "four pairs");
    assert_eq!(rt; said.head.args, 4);
    assert!(rt; said.offsets.as_slice() == [100].as_slice());
    let last = bytes.len().min(99);
    bytes.truncate(last);
    bytes.push(9)?;
    let bad = DataKind::BadString { index: 9, count: 9 };
    assert_eq!(rt; fault_of(alloc, &bytes)?, at(99, bad));
    Ok(())
}

/// The faults of opening a file and of the call after that.
fn opened(alloc: Global, files: &mut MemoryFiles, path: &str) -> [Option<CounterFault>; 2] {
    let mut reader = CounterReader::new(alloc, files, path);
    let first = reader.open(alloc).err();
    [first, reader.next(alloc).err()]
}

/// The fault of the first entry, and what the reader answers after it.
fn after_fault(
    alloc: Global,
    files: &mut MemoryFiles,
    path: &str,
) -> Result<[Option<CounterFault>; 3], CounterFault> {
    let mut reader = CounterReader::start(alloc, files, path)?;
    match reader.next(alloc) {
        Ok(_) => Err(CounterFault::Missing),
        Err(first) => {
            let again = reader.next(alloc).err();
            let last = reader.finish().err();
            Ok([Some(first), again, last])
        }
    }
}

#[test]
fn a_fault_is_kept(rt: HostRuntime) -> Result<(), Fail> {
    let alloc = rt.alloc();
    let mut files = MemoryFiles::new(alloc, &[1])?;
    files.add("c", &EXAMPLE[..57])?;
    let missing = Some(CounterFault::Missing);
    assert_eq!(rt; opened(alloc, &mut files, "d"), [missing, missing]);
    let read = Some(CounterFault::Read);
    assert_eq!(rt; opened(alloc, &mut files, "c"), [read, read]);
    let short = at(57, DataKind::Short);
    assert_eq!(rt;
        after_fault(alloc, &mut files, "c"),
        Ok([short, short, short])
    );
    Ok(())
}
