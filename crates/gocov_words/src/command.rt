//! Commands.
use crate::sub::Sub;
use cov_outside::{Mode, Sequence, Text};
use std::marker::Model;

/// What a list of words means.
#[derive(Debug, Drop)]
pub enum Command {
    Cover(CoverArgs),
    Run(RunArgs),
    Covdata(DataArgs),
}

/// Where to put a covered source file, and how.
///
/// The texts are UTF-8. `var` is an identifier that is no keyword and not `_`, `out` isn't empty, and `file` holds no
/// newline, NUL or byte order mark.
#[derive(Debug, Drop)]
pub struct CoverArgs {
    pub mode: Mode,
    /// The name of the counters' variable.
    pub var: Text,
    /// The path of `-o`.
    pub out: Text,
    /// The path of the source file.
    pub file: Text,
}

impl Model for CoverArgs {
    ghost use Rattle.gocov_words.specs.CoverRequest.{CoverRequest, IsCoverRequest};

    ghost Value = { CoverRequest };

    ghost view = { λ a. record { mode = a.mode; var = a.var; out = a.out; file = a.file } };

    ghost invariant = { λ a. IsCoverRequest (record { mode = a.mode; var = a.var; out = a.out; file = a.file }) };
}

/// Which module to run, and how.
///
/// The texts are UTF-8, and `coverdir` isn't empty. Without it the mode is `Set`, and `Count` is serial. There are 1 to
/// 10,000,000 steps at most.
#[derive(Debug, Drop)]
pub struct RunArgs {
    pub mode: Mode,
    /// The directory of `-coverdir`, where a pod is written.
    pub coverdir: Option<Text>,
    /// Whether goroutines run in the one serial schedule.
    pub serial: bool,
    /// The limit of steps.
    pub max_steps: u32,
    /// The module's directory.
    pub dir: Text,
}

impl Model for RunArgs {
    ghost use Rattle.gocov_words.specs.RunRequest.{RunRequest, IsRunRequest};

    ghost Value = { RunRequest };

    ghost view = { λ a. record { mode = a.mode; coverdir = a.coverdir; serial = a.serial; max_steps = a.max_steps; dir = a.dir } };

    ghost invariant = { λ a. IsRunRequest (record { mode = a.mode; coverdir = a.coverdir; serial = a.serial; max_steps = a.max_steps; dir = a.dir }) };
}

/// What to do with the pods of some directories.
///
/// The texts are UTF-8 and not empty. There are 1 to 1,024 directories, and 2 for `subtract` and `intersect`. `out` is
/// there exactly for a command that puts files, and `pkg` is empty for one that doesn't report.
#[derive(Debug, Drop)]
pub struct DataArgs {
    pub sub: Sub,
    /// The directories of `-i`, in order.
    pub dirs: Sequence<Text>,
    /// The path of `-o`.
    pub out: Option<Text>,
    /// The patterns of `-pkg`; none keep all packages.
    pub pkg: Sequence<Text>,
}

impl Model for DataArgs {
    ghost use Rattle.gocov_words.specs.DataRequest.{DataRequest, IsDataRequest};

    ghost Value = { DataRequest };

    ghost view = { λ a. record { sub = a.sub; dirs = a.dirs; out = a.out; pkg = a.pkg } };

    ghost invariant = { λ a. IsDataRequest (record { sub = a.sub; dirs = a.dirs; out = a.out; pkg = a.pkg }) };
}
