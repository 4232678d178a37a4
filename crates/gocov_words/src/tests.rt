use super::*;
use std::alloc::{AllocError, Global};
use std::process::Abort;
use std::test::Fail;

/// Words with a space between them, and what they mean.
const COVDATA: &[(&str, &str)] = &[
    // Commands.
    ("covdata", "Usage(1)"),
    ("covdata nope -x", "Usage(1)"),
    ("covdata -i=a", "Usage(1)"),
    ("nope", "Usage(0)"),
    ("", "Usage(0)"),
    ("--help", "Usage(0)"),
    ("covdata textfmt -i=a -o=f", "Textfmt i=a o=f"),
    ("covdata percent -i=a", "Percent i=a"),
    ("covdata func -i=a", "Func i=a"),
    ("covdata pkglist -i=a", "Pkglist i=a"),
    ("covdata merge -i=a -o=f", "Merge i=a o=f"),
    ("covdata subtract -i=a,b -o=f", "Subtract i=a i=b o=f"),
    ("covdata intersect -i=a,b -o=f", "Intersect i=a i=b o=f"),
    ("covdata debugdump -i=a", "Debugdump i=a"),
    // Forms of flags.
    ("covdata percent -i a -i b", "Percent i=b"),
    ("covdata percent --i=b", "Percent i=b"),
    ("covdata percent -i=b --", "Percent i=b"),
    ("covdata percent --i b", "Percent i=b"),
    ("covdata percent -i=--", "Percent i=--"),
    ("covdata percent -i --", "Percent i=--"),
    ("covdata percent -i -i=b", "Percent i=-i=b"),
    ("covdata percent -i=a=b", "Percent i=a=b"),
    ("covdata percent ---i=a", "Usage(2)"),
    ("covdata percent -=x", "Usage(2)"),
    ("covdata percent -- -i=b", "Usage(3)"),
    ("covdata percent -i=b -- --", "Usage(4)"),
    ("covdata percent -", "Usage(2)"),
    ("covdata percent -i=b -", "Usage(3)"),
    ("covdata percent -i=b x", "Usage(3)"),
    ("covdata percent x -i=b", "Usage(2)"),
    ("covdata percent -i=b x -x", "Usage(3)"),
    // Unknown flags.
    ("covdata percent -x", "Usage(2)"),
    ("covdata percent -i=b -x", "Usage(3)"),
    ("covdata percent -serial -i=b", "Usage(2)"),
    ("covdata percent -o=f -i=b", "Usage(2)"),
    ("covdata merge -i=a -o=f -pkg=p", "Usage(4)"),
    ("covdata textfmt -I=a -o=f", "Usage(2)"),
    // Values.
    ("covdata percent -i=", "Usage(2)"),
    ("covdata percent -i ", "Usage(2)"),
    ("covdata percent -i=a,,b", "Usage(2)"),
    ("covdata percent -i=,", "Usage(2)"),
    ("covdata percent -i=a,", "Usage(2)"),
    ("covdata percent -i=a -pkg=", "Usage(3)"),
    (
        "covdata percent -i=a -pkg=p,q/...",
        "Percent i=a pkg=p pkg=q/...",
    ),
    ("covdata percent -i= -i=b", "Usage(2)"),
    ("covdata percent -i=b -i=", "Usage(3)"),
    ("covdata textfmt -i=a -o= -o=f", "Usage(3)"),
    ("covdata textfmt -o=e -i=a -o=f,g", "Textfmt i=a o=f,g"),
    ("covdata percent -i a,,b -x", "Usage(2)"),
    // What is missing.
    ("covdata percent", "Usage(2)"),
    ("covdata percent --", "Usage(3)"),
    ("covdata percent -i", "Usage(3)"),
    ("covdata percent -i=a -i", "Usage(4)"),
    ("covdata textfmt -o=f", "Usage(3)"),
    ("covdata textfmt -i=a", "Usage(3)"),
    ("covdata textfmt -i=a -o", "Usage(4)"),
    ("covdata merge -i=a", "Usage(3)"),
    // Two directories.
    ("covdata subtract -i=a -o=f", "Usage(2)"),
    ("covdata intersect -o=f -i a,b,c", "Usage(3)"),
    ("covdata subtract -i=a,b -i=c -o=f", "Usage(3)"),
    ("covdata subtract -i=a -i=b,c -o=f", "Subtract i=b i=c o=f"),
    ("covdata subtract -i=a", "Usage(3)"),
    ("covdata merge -i=a,a,a -o=f", "Merge i=a i=a i=a o=f"),
];

const COVER: &[(&str, &str)] = &[
    ("cover -mode=set -o=b a", "Set var=GoCover o=b a"),
    ("cover -mode count --o b -- -a", "Count var=GoCover o=b -a"),
    ("cover -o=b -mode=atomic --var=_9 a", "Atomic var=_9 o=b a"),
    ("cover -mode=set -o=b -var=größe2 a", "Set var=größe2 o=b a"),
    (
        "cover -mode=set -mode=count -o=b a",
        "Count var=GoCover o=b a",
    ),
    ("cover -mode=set -o=b -", "Set var=GoCover o=b -"),
    ("cover -mode=set -o=b ", "Set var=GoCover o=b "),
    // Unknown flags and bad values.
    ("cover -i=a", "Usage(1)"),
    ("cover -serial", "Usage(1)"),
    ("cover -mode=sets -o=b a", "Usage(1)"),
    ("cover -mode= -o=b a", "Usage(1)"),
    ("cover -mode=x -mode=set -o=b a", "Usage(1)"),
    ("cover -mode=set -o= a", "Usage(2)"),
    ("cover -mode=set -o=b -var=_ a", "Usage(3)"),
    ("cover -mode=set -o=b -var=func a", "Usage(3)"),
    ("cover -mode=set -o=b -var=9a a", "Usage(3)"),
    ("cover -mode=set -o=b -var=a.b a", "Usage(3)"),
    ("cover -mode=set -o=b -var= a", "Usage(3)"),
    ("cover -mode=set -o=b -var=func -var=a a", "Usage(3)"),
    // FILE: bad, one too many, missing.
    ("cover -mode=set -o=b a\nb", "Usage(3)"),
    ("cover -mode=set -o=b a\0", "Usage(3)"),
    ("cover -mode=set -o=b \u{feff}a", "Usage(3)"),
    ("cover -mode=set -o=b a c", "Usage(4)"),
    ("cover -mode=set -o=b a\n c", "Usage(3)"),
    ("cover -o=b a c", "Usage(3)"),
    ("cover", "Usage(1)"),
    ("cover -mode", "Usage(2)"),
    ("cover -o=b a", "Usage(3)"),
    ("cover -mode=set a", "Usage(3)"),
    ("cover -o -mode=set a", "Usage(4)"),
    ("cover -mode=set -o=b", "Usage(3)"),
    ("cover -mode=set -o=b --", "Usage(4)"),
];

const RUN: &[(&str, &str)] = &[
    ("run m", "Set steps=1000000 m"),
    ("run -- -m", "Set steps=1000000 -m"),
    ("run -coverdir=c m", "Set coverdir=c steps=1000000 m"),
    (
        "run -coverdir c,d -mode=atomic m",
        "Atomic coverdir=c,d steps=1000000 m",
    ),
    ("run -serial m", "Set serial steps=1000000 m"),
    ("run -serial=1 m", "Set serial steps=1000000 m"),
    ("run -serial=t m", "Set serial steps=1000000 m"),
    ("run -serial=T m", "Set serial steps=1000000 m"),
    ("run -serial=true m", "Set serial steps=1000000 m"),
    ("run -serial=TRUE m", "Set serial steps=1000000 m"),
    ("run --serial=True m", "Set serial steps=1000000 m"),
    ("run -serial=0 m", "Set steps=1000000 m"),
    ("run -serial=f m", "Set steps=1000000 m"),
    ("run -serial=F m", "Set steps=1000000 m"),
    ("run -serial=false m", "Set steps=1000000 m"),
    ("run -serial=FALSE m", "Set steps=1000000 m"),
    ("run -serial -serial=False m", "Set steps=1000000 m"),
    ("run -max-steps=007 m", "Set steps=7 m"),
    ("run -max-steps 10000000 m", "Set steps=10000000 m"),
    (
        "run -max-steps=00000000000000000000000000000001 m",
        "Set steps=1 m",
    ),
    // Unknown flags and bad values.
    ("run -var=x m", "Usage(1)"),
    ("run -mode=sets -coverdir=c m", "Usage(1)"),
    ("run -coverdir= m", "Usage(1)"),
    ("run -serial= m", "Usage(1)"),
    ("run -serial=yes m", "Usage(1)"),
    ("run -max-steps=0 m", "Usage(1)"),
    ("run -max-steps=10000001 m", "Usage(1)"),
    ("run -max-steps=4294967297 m", "Usage(1)"),
    ("run -max-steps=+5 m", "Usage(1)"),
    ("run -max-steps=-5 m", "Usage(1)"),
    ("run -max-steps=1_000 m", "Usage(1)"),
    ("run -max-steps= m", "Usage(1)"),
    // DIR: one too many, missing.
    ("run -serial true m", "Usage(3)"),
    ("run -mode=count m n", "Usage(3)"),
    ("run", "Usage(1)"),
    ("run -max-steps", "Usage(2)"),
    ("run -mode=count", "Usage(2)"),
    // Modes without a directory, and count without the serial schedule.
    ("run -mode=set m", "Usage(1)"),
    ("run -mode=set -serial -mode=atomic m", "Usage(3)"),
    ("run -mode=count -coverdir=c m", "Usage(1)"),
    (
        "run -coverdir=c -mode=count -mode=count -serial=f m",
        "Usage(3)",
    ),
    (
        "run -mode=count -mode=set -coverdir=c m",
        "Set coverdir=c steps=1000000 m",
    ),
    (
        "run -mode=count -coverdir=c -serial m",
        "Count coverdir=c serial steps=1000000 m",
    ),
];

fn show_cover(args: &CoverArgs, shown: &mut Vec<u8>) -> Result<(), AllocError> {
    shown.extend_from_slice(b" var=")?;
    shown.extend_from_slice(args.var.bytes())?;
    shown.extend_from_slice(b" o=")?;
    shown.extend_from_slice(args.out.bytes())?;
    shown.extend_from_slice(b" ")?;
    shown.extend_from_slice(args.file.bytes())
}

fn show_run(alloc: Global, args: &RunArgs, shown: &mut Vec<u8>) -> Result<(), AllocError> {
    if let Some(dir) = &args.coverdir {
        shown.extend_from_slice(b" coverdir=")?;
        shown.extend_from_slice(dir.bytes())?;
    }
    if args.serial {
        shown.extend_from_slice(b" serial")?;
    }
    let steps = args.max_steps;
    shown.extend_from_slice(format!(in alloc; " steps={steps} ")?.as_bytes())?;
    shown.extend_from_slice(args.dir.bytes())
}

fn show_data(args: &DataArgs, shown: &mut Vec<u8>) -> Result<(), AllocError> {
    for dir in args.dirs.as_slice() {
        shown.extend_from_slice(b" i=")?;
        shown.extend_from_slice(dir.bytes())?;
    }
    if let Some(path) = &args.out {
        shown.extend_from_slice(b" o=")?;
        shown.extend_from_slice(path.bytes())?;
    }
    for pattern in args.pkg.as_slice() {
        shown.extend_from_slice(b" pkg=")?;
        shown.extend_from_slice(pattern.bytes())?;
    }
    Ok(())
}

/// What words mean, as text.
fn answer(alloc: Global, words: &[&str]) -> Result<Vec<u8>, Fail> {
    let mut shown = Vec::new(alloc);
    match read_words(alloc, words) {
        Ok(Command::Cover(args)) => {
            let mode = args.mode;
            shown.extend_from_slice(format!(in alloc; "{mode:?}")?.as_bytes())?;
            show_cover(&args, &mut shown)?;
        }
        Ok(Command::Run(args)) => {
            let mode = args.mode;
            shown.extend_from_slice(format!(in alloc; "{mode:?}")?.as_bytes())?;
            show_run(alloc, &args, &mut shown)?;
        }
        Ok(Command::Covdata(args)) => {
            let sub = args.sub;
            shown.extend_from_slice(format!(in alloc; "{sub:?}")?.as_bytes())?;
            show_data(&args, &mut shown)?;
        }
        Err(fault) => shown.extend_from_slice(format!(in alloc; "{fault:?}")?.as_bytes())?,
    }
    Ok(shown)
}

fn check(rt: &impl Abort, alloc: Global, rows: &[(&str, &str)]) -> Result<(), Fail> {
    for (line, want) in rows {
        let words: Vec<&str> = line.split(' ').collect(alloc)?;
        assert_eq!(rt;
            answer(alloc, &words)?.as_slice(),
            want.as_bytes(),
            "{line}"
        );
    }
    Ok(())
}

#[test]
fn words_mean(rt: HostRuntime) -> Result<(), Fail> {
    let alloc = rt.alloc();
    assert_eq!(rt; answer(alloc, &[])?.as_slice(), b"Usage(0)".as_slice());
    check(&rt, alloc, COVDATA)?;
    check(&rt, alloc, COVER)?;
    check(&rt, alloc, RUN)
}

/// `-i=` with so many directories, and one more.
fn dirs(alloc: Global, more: u32) -> Result<String, AllocError> {
    let mut flag = String::from_str(alloc, "-i=a")?;
    for _ in 0..more {
        flag.push_str(",b")?;
    }
    Ok(flag)
}

#[test]
fn directories_are_limited(rt: HostRuntime) -> Result<(), Fail> {
    let alloc = rt.alloc();
    let most = dirs(alloc, 1023)?;
    let over = dirs(alloc, 1024)?;
    let limit = b"Limit(Directories)".as_slice();
    // `Percent`, and ` i=` with one letter for each of 1,024 directories.
    let whole = answer(alloc, &["covdata", "percent", "-i=c", most.as_str()])?;
    assert_eq!(rt; whole.len(), 7 + 4 * 1024);
    assert_eq!(rt;
        answer(alloc, &["covdata", "percent", over.as_str()])?.as_slice(),
        limit
    );
    assert_eq!(rt;
        answer(alloc, &["covdata", "percent", over.as_str(), "-i=c"])?.as_slice(),
        b"Percent i=c".as_slice()
    );
    assert_eq!(rt;
        answer(alloc, &["covdata", "percent", over.as_str(), "x"])?.as_slice(),
        b"Usage(3)".as_slice()
    );
    assert_eq!(rt;
        answer(alloc, &["covdata", "merge", over.as_str()])?.as_slice(),
        b"Usage(3)".as_slice()
    );
    assert_eq!(rt;
        answer(alloc, &["covdata", "subtract", over.as_str(), "-o=f"])?.as_slice(),
        b"Usage(2)".as_slice()
    );
    Ok(())
}
