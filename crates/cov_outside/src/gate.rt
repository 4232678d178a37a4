//! What each turn of a goroutine passes.
use std::marker::Sync;

/// Lets a test arrange which threads run beside each other.
pub trait Gate: Sync {
    /// Called before each turn of a goroutine, with its number from 1.
    fn pass(&self, goroutine: u32);
}

/// A gate that holds nobody up.
#[derive(Clone, Copy, Debug)]
pub struct OpenGate;

impl Gate for OpenGate {
    fn pass(&self, _goroutine: u32) {}
}
