//! Lists of statements by their numbers.
ghost use Rattle.std.specs.Prelude.{◌≡◌, ◌+◌, ◌<◌, ◌^◌, Ok, length, IfOk};
ghost use Rattle.go_types.specs.Walking as spec;
ghost use Rattle.go_types.specs.Walking.{Walks};

use go_meaning::Node;
use go_types::{Refusal, Walk};
use sqlite_items::Items;
use std::alloc::Global;

/// Numbers for so many lists, of which the first is answered.
pub fn new_lists(alloc: Global, walk: &mut Walk, count: usize) -> Result<u64, Refusal>
    ensures lists { Walks (spec.new_lists count walk.old) result walk.new }
    ensures fits { IfOk result (λ l. l + count < 2 ^ 64) }
{
    let first = walk.lists.len();
    for _more in 0..count {
        walk.lists.push(Items::new(alloc))?;
    }
    let _end = walk.lists.len();
    Ok(first as u64)
}

/// Sets the list with a number.
pub fn set_list(walk: &mut Walk, number: u64, nodes: Items<Node>)
    ensures { spec.set_list number nodes walk.old ≡ Ok (tt, walk.new) }
{
    let number = number as usize;
    if number < walk.lists.len() {
        walk.lists.set(number, nodes);
    }
}
