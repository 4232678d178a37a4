//! Stretches of a text.

/// The bytes from `start` up to before `end`, as offsets from 0.
#[derive(Clone, Copy, Debug, PartialEq, Eq)]
pub struct Span {
    pub start: u32,
    pub end: u32,
}
