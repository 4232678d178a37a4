//! The limits of a meta file, and what they still let through.

/// The bytes of a file.
pub const MAX_FILE_BYTES: usize = 268_435_456;

/// The packages of a file.
pub const MAX_PACKAGES: u64 = 1_000;

/// The bytes of one text.
pub const MAX_TEXT_BYTES: u64 = 2_048;

/// How much of a meta file may still come.
#[derive(Clone, Copy, Debug)]
pub struct Allowance {
    pub functions: u64,
    pub strings: u64,
    /// Bytes of all strings together.
    pub string_bytes: u64,
    pub units: u64,
}

impl Allowance {
    /// The limits of a whole file.
    pub const WHOLE: Allowance = Allowance {
        functions: 1_048_576,
        strings: 1_048_576,
        string_bytes: 268_435_456,
        units: 1_048_576,
    };
}
