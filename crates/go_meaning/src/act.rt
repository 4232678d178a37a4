//! What the item at the head of a control list does.
use crate::event::End;
use crate::expr::Target;
use crate::item::Item;
use crate::node::Deferral;
use crate::stack::Stack;
use crate::value::Value;
use go_ast::Text;
use go_value::Int;

/// What an item does. Where values go, they are the top ones of its frame's stack.
#[derive(Debug, Drop)]
pub enum Act {
    /// It meets an operand that isn't there or has another kind.
    Stuck,
    /// It has no step by itself now.
    Waits,
    /// That many values go, and the items take its place.
    Replaces(u64, Stack<Item>),
    /// That many values go, and one comes.
    Pushes(u64, Value),
    /// The target takes the value that lies under one for each further target, and these stay.
    Assigns(Target, Stack<Target>),
    /// The targets take an offset and a rune, a further offset takes the top's place, and the items the item's.
    Advances {
        offset: Target,
        at: Int,
        rune: Target,
        code: Int,
        next: Int,
        items: Stack<Item>,
    },
    /// `break` and `continue` past that many marks, and `fallthrough` to a list.
    Breaks(u64),
    Continues(u64),
    Falls(u64),
    /// A function is called, started, or a call deferred.
    Calls(u64),
    Spawns(u64),
    Defers(Deferral),
    Returns(u64),
    Unwinds(Text),
    Panics(Text),
    /// A limit would be passed.
    Stops(End),
    /// That many values go, and the run ends.
    Ends(u64, End),
    /// That many values go, and the text is written.
    Prints(u64, Text),
    /// A mutex is locked, or no longer.
    Locks(u64, bool),
    /// That many values go, and a wait group has another number.
    Sets {
        pops: u64,
        group: u64,
        number: u32,
    },
    /// That many values go, and a new channel comes.
    Makes {
        pops: u64,
        zero: Value,
        capacity: u64,
    },
    /// One value goes, and a channel is closed.
    Closes(u32),
}
