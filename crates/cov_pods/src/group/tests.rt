use super::collect;
use crate::pod::{DirNames, Pod};
use cov_outside::{NoMemory, Sequence, Text};
use std::alloc::Global;
use std::test::Fail;

/// Directories with their names, and for each pod its hash, its meta file and its counter files.
type Case = (
    &'static [(&'static str, &'static [&'static str])],
    &'static [&'static str],
);

const CASES: [Case; 4] = [
    (&[], &[]),
    // Names that are almost those of meta or counter files, and others.
    (
        &[(
            "a",
            &[
                "Covmeta.00000000000000000000000000000001",
                "covcounters.00000000000000000000000000000001",
                "covcounters.00000000000000000000000000000001.1",
                "covmeta",
                "covmeta.",
                "covmeta.0000000000000000000000000000000",
                "covmeta.00000000000000000000000000000001.",
                "covmeta.0000000000000000000000000000000F",
                "covmeta.000000000000000000000000000000010",
                "covmeta.0000000000000000000000000000000g",
                "notes.txt",
            ],
        )],
        &[],
    ),
    // A counter file whose meta file isn't there.
    (
        &[("a", &["covcounters.00000000000000000000000000000001.7.1"])],
        &[],
    ),
    // One hash in both directories, counter files before meta files, an orphan, and names that are almost right.
    (
        &[
            (
                "a",
                &[
                    "covcounters.00000000000000000000000000000001.7.1",
                    "covcounters.00000000000000000000000000000001.7.x",
                    "covcounters.00000000000000000000000000000002.7.1",
                    "covcounters.00000000000000000000000000000002.7.10",
                    "covcounters.00000000000000000000000000000003.7.1",
                    "covmeta.00000000000000000000000000000002",
                    "covmeta.00000000000000000000000000000002~",
                ],
            ),
            (
                "b/c",
                &[
                    "covcounters.00000000000000000000000000000002.18446744073709551615.99999999999999999999",
                    "covcounters.00000000000000000000000000000002.7.100000000000000000000",
                    "covcounters.00000000000000000000000000000004.7.1",
                    "covmeta.00000000000000000000000000000001",
                    "covmeta.00000000000000000000000000000002",
                    "covmeta.000000000000000000000000000000ff",
                ],
            ),
        ],
        &[
            "00000000000000000000000000000002",
            "a/covmeta.00000000000000000000000000000002",
            "a/covcounters.00000000000000000000000000000002.7.1",
            "a/covcounters.00000000000000000000000000000002.7.10",
            "b/c/covcounters.00000000000000000000000000000002.18446744073709551615.99999999999999999999",
            "00000000000000000000000000000001",
            "b/c/covmeta.00000000000000000000000000000001",
            "a/covcounters.00000000000000000000000000000001.7.1",
            "000000000000000000000000000000ff",
            "b/c/covmeta.000000000000000000000000000000ff",
        ],
    ),
];

fn names_of(alloc: Global, dir: &str, names: &[&str]) -> Result<DirNames, NoMemory> {
    let mut texts = Sequence::new(alloc);
    for name in names {
        texts.push(Text::of(alloc, name.as_bytes())?)?;
    }
    Ok(DirNames {
        dir: Text::of(alloc, dir.as_bytes())?,
        names: texts,
    })
}

fn dirs_of(alloc: Global, dirs: &[(&str, &[&str])]) -> Result<Vec<DirNames>, NoMemory> {
    let mut all = Vec::new(alloc);
    for (dir, names) in dirs {
        all.push(names_of(alloc, dir, names)?)?;
    }
    Ok(all)
}

fn texts_of(alloc: Global, pods: &[Pod]) -> Result<Vec<&[u8]>, NoMemory> {
    let mut texts = Vec::new(alloc);
    for pod in pods {
        texts.push(pod.hash.bytes())?;
        texts.push(pod.meta.bytes())?;
        for counter in pod.counters.as_slice() {
            texts.push(counter.bytes())?;
        }
    }
    Ok(texts)
}

fn bytes_of<'a>(alloc: Global, texts: &[&'a str]) -> Result<Vec<&'a [u8]>, NoMemory> {
    let mut all = Vec::new(alloc);
    for text in texts {
        all.push(text.as_bytes())?;
    }
    Ok(all)
}

#[test]
fn groups_files_by_their_hashes(rt: HostRuntime) -> Result<(), Fail> {
    let alloc = rt.alloc();
    for (dirs, want) in CASES {
        let dirs = dirs_of(alloc, dirs)?;
        let pods = collect(alloc, &dirs)?;
        let texts = texts_of(alloc, &pods)?;
        let want = bytes_of(alloc, want)?;
        assert_eq!(rt; texts.as_slice(), want.as_slice());
    }
    Ok(())
}
