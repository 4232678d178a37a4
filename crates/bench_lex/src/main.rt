//! Lexes a source of 4 MiB, and prints how many tokens it has.
#![tactic(auto)]

use go_lex::lex;
use std::alloc::{AllocError, Global};
use std::io;

/// A line of some 64 bytes, with each kind of token.
const LINE: &[u8] = b"\tx, total = x+0x1f, f(a.b, 'c', \"text\\n\") // what it adds to\n";

/// How often the line stands in the source.
const LINES: usize = 4_194_304 / 62;

/// A source of some lines.
fn source(alloc: Global, lines: usize) -> Result<Vec<u8>, AllocError> {
    let mut text = Vec::new(alloc);
    for _ in 0..lines {
        text.extend_from_slice(LINE)?;
    }
    Ok(text)
}

fn main(rt: HostRuntime) -> io::Result<()> {
    let text = source(rt.alloc(), LINES)?;
    if text.len() > 4_194_304 {
        return Ok(());
    }
    match lex(rt.alloc(), &text) {
        Ok(tokens) => println!(rt; "{} bytes, {} tokens", text.len(), tokens.len()),
        Err(_) => println!(rt; "no tokens"),
    }
}
