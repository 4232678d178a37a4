//! Bounds of readers.

/// How the readers of statements are bounded: the turns of a loop, and the clauses of a `select`.
#[derive(Clone, Copy, Debug, PartialEq, Eq)]
pub struct Bounds {
    pub turns: usize,
    pub most: usize,
}
