//! Puts pieces into a text.
ghost use Rattle.std.specs.Prelude.{◌≡◌, ◌++◌, ◌≤◌, All, length, OnOk};
ghost use Rattle.cov_rewrite.specs.Weaving.{woven};
ghost use Rattle.cov_rewrite.specs.Ascending.{Ascends};

use crate::addition::push_addition;
use crate::piece::Piece;
use cov_outside::{Mode, NoMemory};

/// Appends a text with pieces put in.
pub fn weave(
    covered: &mut Vec<u8>,
    var: &[u8],
    mode: Mode,
    pieces: &mut Vec<Piece>,
    text: &[u8],
) -> Result<(), NoMemory>
    requires { All (λ p. p.at ≤ length text.now) pieces.old.items }
    ensures { OnOk result (covered.new.items ≡ covered.old.items ++ woven var.now mode pieces.old.items text.now) }
{
    pieces.sort_by_key(|piece| piece.at)?;
    weave_in_order(covered, var, mode, pieces, text)
}

/// The same for pieces in the order of their offsets.
fn weave_in_order(
    covered: &mut Vec<u8>,
    var: &[u8],
    mode: Mode,
    pieces: &[Piece],
    text: &[u8],
) -> Result<(), NoMemory>
    requires order { Ascends 0 pieces.now }
    requires within { All (λ p. p.at ≤ length text.now) pieces.now }
    ensures { OnOk result (covered.new.items ≡ covered.old.items ++ woven var.now mode pieces.now text.now) }
{
    let mut at = 0;
    for piece in pieces {
        let next = piece.at as usize;
        covered.extend_from_slice(&text[at..next])?;
        push_addition(covered, var, mode, piece.addition)?;
        at = next;
    }
    covered.extend_from_slice(&text[at..])?;
    Ok(())
}
