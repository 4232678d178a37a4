//! Faults of meta and counter files.
ghost use Rattle.std.specs.Prelude.{◌≡◌};
ghost use Rattle.cov_outside.specs.Limits.{kind_name};

/// What is wrong with a data file.
#[derive(Clone, Copy, Debug, PartialEq, Eq)]
pub enum DataKind {
    Short,
    NumberTooLong,
    NumberTooLarge,
    BadMagic,
    BadVersion,
    RegOnlyMode,
    TestMainMode,
    BadMode,
    PerFunction,
    BadGranularity,
    BadRange,
    BadString { index: u32, count: u32 },
    HashDiffers { meta: [u8; 16], counters: [u8; 16] },
    BadFlavour,
    BadFlag,
    BadPackage { index: u32, count: u32 },
    BadFunction { index: u32, count: u32 },
    BadCount { have: u32, want: u32 },
    Trailing,
    Segments { count: u32 },
    BadPadding,
}

impl DataKind {
    /// The name in the line of an answer.
    pub fn name(&self) -> &'static [u8]
        ensures { result.now ≡ kind_name self.now }
    {
        match self {
            DataKind::Short => b"Short",
            DataKind::NumberTooLong => b"NumberTooLong",
            DataKind::NumberTooLarge => b"NumberTooLarge",
            DataKind::BadMagic => b"BadMagic",
            DataKind::BadVersion => b"BadVersion",
            DataKind::RegOnlyMode => b"RegOnlyMode",
            DataKind::TestMainMode => b"TestMainMode",
            DataKind::BadMode => b"BadMode",
            DataKind::PerFunction => b"PerFunction",
            DataKind::BadGranularity => b"BadGranularity",
            DataKind::BadRange => b"BadRange",
            DataKind::BadString { .. } => b"BadString",
            DataKind::HashDiffers { .. } => b"HashDiffers",
            DataKind::BadFlavour => b"BadFlavour",
            DataKind::BadFlag => b"BadFlag",
            DataKind::BadPackage { .. } => b"BadPackage",
            DataKind::BadFunction { .. } => b"BadFunction",
            DataKind::BadCount { .. } => b"BadCount",
            DataKind::Trailing => b"Trailing",
            DataKind::Segments { .. } => b"Segments",
            DataKind::BadPadding => b"BadPadding",
        }
    }
}
