//! Lists of names.
ghost use Rattle.std.specs.Prelude.{◌≡◌};
ghost use Rattle.go_reading.specs.Input.{Reads};
ghost use Rattle.go_reading.specs.Types as spec;

use crate::cursor::Tokens;
use crate::fault::EXHAUSTED;
use crate::words::COMMA;
use go_ast::Name;
use go_reading::ParseError;
use sqlite_items::Items;
use std::alloc::Global;

/// Names with commas between.
#[tactic(auto, unfolding(go_reading::specs::Types::names, go_reading::specs::Lists::row_from))]
pub fn names(
    alloc: Global,
    tokens: &mut Tokens<'_>,
    turns: usize,
) -> Result<Items<Name>, ParseError>
    ensures { Reads (spec.names turns tokens.old) result tokens.new }
{
    let mut found = Items::new(alloc);
    for _turn in 0..turns {
        let (name, _) = tokens.expect_name(alloc)?;
        found.push(name)?;
        if !tokens.sees(COMMA) {
            return Ok(found);
        }
        tokens.take();
    }
    Err(EXHAUSTED)
}
