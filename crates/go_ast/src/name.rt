//! Names.
use crate::text::Text;

/// An identifier and the offset of its first byte.
#[derive(Debug, Drop)]
pub struct Name {
    pub text: Text,
    pub at: u32,
}
