//! Limits on what is read.
ghost use Rattle.std.specs.Prelude.{◌≡◌};
ghost use Rattle.cov_outside.specs.Limits.{limit_name, limit_number};

/// A counted quantity that has a limit.
#[derive(Clone, Copy, Debug, PartialEq, Eq)]
pub enum Which {
    SourceBytes,
    DataBytes,
    Packages,
    Units,
    Functions,
    Strings,
    NameBytes,
    StringBytes,
    Directories,
    DataFiles,
    SelectClauses,
    Depth,
}

impl Which {
    /// The name in the line of an answer.
    pub fn name(self) -> &'static [u8]
        ensures { result.now ≡ limit_name self }
    {
        match self {
            Which::SourceBytes => b"SourceBytes",
            Which::DataBytes => b"DataBytes",
            Which::Packages => b"Packages",
            Which::Units => b"Units",
            Which::Functions => b"Functions",
            Which::Strings => b"Strings",
            Which::NameBytes => b"NameBytes",
            Which::StringBytes => b"StringBytes",
            Which::Directories => b"Directories",
            Which::DataFiles => b"DataFiles",
            Which::SelectClauses => b"SelectClauses",
            Which::Depth => b"Depth",
        }
    }

    /// The greatest number that is allowed.
    pub fn number(self) -> u32
        ensures { result ≡ limit_number self }
    {
        match self {
            Which::SourceBytes => 4194304,
            Which::DataBytes => 268435456,
            Which::Packages => 1000,
            Which::Units => 1048576,
            Which::Functions => 1048576,
            Which::Strings => 1048576,
            Which::NameBytes => 2048,
            Which::StringBytes => 268435456,
            Which::Directories => 1024,
            Which::DataFiles => 65536,
            Which::SelectClauses => 1000,
            Which::Depth => 1000,
        }
    }
}
