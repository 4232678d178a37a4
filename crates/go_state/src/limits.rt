//! Limits of a run.

/// What a run may take.
#[derive(Clone, Copy, Debug, PartialEq, Eq)]
pub struct Limits {
    /// How many steps of the program. Counter steps aren't counted.
    pub steps: u32,
}
