use super::*;
use crate::share::push_percent;
use cov_outside::{NoMemory, Sequence, Text};
use std::alloc::Global;
use std::test::Fail;

mod files;
mod pods;
mod texts;

fn filter_of(alloc: Global, patterns: &[&[u8]]) -> Result<Filter, NoMemory> {
    let mut texts = Sequence::new(alloc);
    for pattern in patterns {
        texts.push(Text::of(alloc, pattern)?)?;
    }
    Ok(Filter { patterns: texts })
}

/// A pattern, a path and whether it is kept.
const PATTERNS: [(&[u8], &[u8], bool); 8] = [
    (b"a/b", b"a/b", true),
    (b"a/b", b"a/b/c", false),
    (b"a/b/...", b"a/b", true),
    (b"a/b/...", b"a/b/c", true),
    (b"a/b/...", b"a/bc", false),
    (b"a/b/...", b"a", false),
    (b"...", b"a", false),
    (b"/...", b"", true),
];

#[test]
fn keeps_matching_paths(rt: HostRuntime) -> Result<(), Fail> {
    for (i, (pattern, path, kept)) in PATTERNS.iter().enumerate() {
        let filter = filter_of(rt.alloc(), &[*pattern])?;
        assert_eq!(rt; filter.keeps(path), *kept, "pattern {i}");
    }
    Ok(())
}

/// Statements that ran, all statements, and the part.
const PARTS: [(u128, u128, &[u8]); 4] = [
    (2, 3, b"66.7%"),
    (1, 16, b"6.3%"),
    (0, 5, b"0.0%"),
    (5, 5, b"100.0%"),
];

#[test]
fn rounds_percents(rt: HostRuntime) -> Result<(), Fail> {
    for (covered, statements, part) in PARTS {
        let mut text = Vec::new(rt.alloc());
        if statements > 0 && statements < 100 && covered < 100 {
            push_percent(&mut text, covered, statements)?;
        }
        assert!(rt; text.as_slice() == part);
    }
    Ok(())
}
