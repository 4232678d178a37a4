//! The look-up that numbers texts by their first use.
ghost use Rattle.std.specs.Prelude.{◌≡◌, ◌≤◌, ◌<◌, ◌^◌, ◌++◌, ◌∷◌, [], ℕ, List, length, take, OnOk, OnErr};
ghost use Rattle.std.specs.HashMap.{IsUnchanged};
ghost use Rattle.cov_bytes.specs.Intern.{FindsFirst};

use cov_outside::{NoMemory, Text};
use std::alloc::Global;
use std::collections::HashMap;

/// The index of the first of equal texts.
pub type Firsts = HashMap<Vec<u8>, u32>;

/// Looks up to that the texts from `known` on are found too. Where memory runs out, those before `known` are.
pub fn index_texts(
    alloc: Global,
    firsts: &mut Firsts,
    known: &mut usize,
    texts: &[Text],
) -> Result<(), NoMemory>
    requires few { length texts.now ≤ 2 ^ 32 }
    requires within { known.old ≤ length texts.now }
    requires found { FindsFirst (λ k. k.items) firsts.old.entries (take known.old texts.now) }
    ensures all { OnOk result (known.new ≡ length texts.now) }
    ensures still_within { known.new ≤ length texts.now }
    ensures still_found { FindsFirst (λ k. k.items) firsts.new.entries (take known.new texts.now) }
{
    while *known < texts.len() {
        note_first(alloc, firsts, texts[*known].bytes(), *known as u32)?;
        *known += 1;
    }
    Ok(())
}

/// Notes the index of a text, unless an equal one is noted.
fn note_first(alloc: Global, firsts: &mut Firsts, text: &[u8], index: u32) -> Result<(), NoMemory>
    ensures noted { OnOk result ((texts : List (List ℕ)) → length texts ≡ index → FindsFirst (λ k. k.items) firsts.old.entries texts
        → FindsFirst (λ k. k.items) firsts.new.entries (texts ++ text.now ∷ [])) }
    ensures err { OnErr result (IsUnchanged firsts.old firsts.new) }
{
    if firsts.contains_key(text) {
        return Ok(());
    }
    firsts.insert(Vec::from_slice(alloc, text)?, index)?;
    Ok(())
}
