//! What tells the counter files of two runs apart.

/// The process and the time, in nanoseconds since 1970, that stand in a counter file's name.
#[derive(Clone, Copy, Debug, PartialEq, Eq)]
pub struct Stamp {
    pub pid: u32,
    pub nanos: u64,
}
