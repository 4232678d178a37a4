//! What a command writes.
use cov_outside::Sequence;
use std::marker::Model;

/// A file to put: its path and its bytes.
#[derive(Debug, Drop)]
pub struct PutFile {
    pub path: String,
    pub bytes: Sequence<u8>,
}

impl Model for PutFile {
    ghost use Rattle.std.specs.Prelude.{List, ℕ};
    ghost use Rattle.std.specs.String.{string_bytes};

    ghost Value = { List ℕ × List ℕ };

    ghost view = { λ p. (string_bytes p.path, p.bytes) };
}

/// All that a command writes: a text to its sink, and then files, in order.
#[derive(Debug, Drop)]
pub struct Work {
    pub text: Sequence<u8>,
    pub puts: Sequence<PutFile>,
}
