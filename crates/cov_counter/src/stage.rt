//! Where a reader stands.
use crate::fault::CounterFault;

/// Where a reader of a counter file stands.
#[derive(Clone, Copy, Debug, PartialEq, Eq)]
pub enum Stage {
    /// Nothing was read.
    New,
    /// The offset of the next entry, or of what follows the last, and how many entries are left.
    Reading { at: u64, left: u64 },
    /// A fault was answered, and is from then on.
    Failed(CounterFault),
}
