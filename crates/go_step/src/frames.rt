//! What acts leave of the frame that runs.
ghost use Rattle.std.specs.Prelude.{◌≡◌, [], ◌∷◌, ◌++◌, ◌<◌, length, drop, OnOk, OnErr};
ghost use Rattle.go_meaning.specs.Moves as moves;
ghost use Rattle.go_step.specs.Puts as puts;

use crate::targets::set_target;
use go_ast::Text;
use go_meaning::{Config, Frame, Item, Stack, Target, Value};
use go_value::Int;
use sqlite_items::Items;
use std::alloc::{AllocError, Global};

/// A frame with nothing in it. It takes no memory.
pub(crate) fn empty_frame(alloc: Global) -> Frame {
    Frame {
        slots: Items::new(alloc),
        stack: Stack::new(alloc),
        deferred: Stack::new(alloc),
        control: Stack::new(alloc),
        drops: false,
    }
}

/// The head item goes, with so many values.
pub fn consume(frame: &mut Frame, count: u64)
    ensures { frame.new ≡ puts.consumed count frame.old }
{
    frame.stack.drop_top(count);
    frame.control.drop_top(1);
}

/// Items take the place of the head item, and so many values go. An `Err` changes nothing.
pub fn replaces(frame: &mut Frame, count: u64, items: Stack<Item>) -> Result<(), AllocError>
    requires { 0 < length frame.old.control }
    ensures ok { OnOk result (frame.new ≡ record frame.old { stack = drop count frame.old.stack; control = items ++ drop 1 frame.old.control }) }
    ensures err { OnErr result (frame.new ≡ frame.old) }
{
    frame.control.replace_top(items)?;
    frame.stack.drop_top(count);
    Ok(())
}

/// One value takes the place of so many, and the head item goes. An `Err` changes nothing.
pub fn pushes(frame: &mut Frame, count: u64, value: Value) -> Result<(), AllocError>
    ensures ok { OnOk result (frame.new ≡ record frame.old { stack = value ∷ drop count frame.old.stack; control = drop 1 frame.old.control }) }
    ensures err { OnErr result (frame.new ≡ frame.old) }
{
    frame.stack.put(count, value)?;
    frame.control.drop_top(1);
    Ok(())
}

/// A panic clears the stack and takes the whole control.
pub fn panics(frame: &mut Frame, message: Text)
    requires { 0 < length frame.old.control }
    ensures { frame.new ≡ puts.panicking message frame.old }
{
    frame.stack.clear();
    let len = frame.control.len();
    frame.control.reduce(len, Item::Unwind(message));
}

fn assign_rest(frame: &mut Frame, rest: Stack<Target>)
    requires { 0 < length frame.old.control }
    ensures { frame.new ≡ record frame.old { control = moves.assign_rest rest ++ drop 1 frame.old.control } }
{
    if rest.len() == 0 {
        frame.control.drop_top(1);
    } else {
        let _head = frame.control.swap_top(Item::Assign(rest));
    }
}

/// A target takes the value that lies under one for each further target, and these stay. There is no step where that value
/// isn't there.
pub fn assigns(config: &mut Config, frame: &mut Frame, target: Target, rest: Stack<Target>) -> bool
    requires { 0 < length frame.old.control }
    ensures { puts.AssignsFrame config.old frame.old target rest result config.new frame.new }
{
    let below = rest.len();
    if below >= frame.stack.len() {
        return false;
    }
    let value = frame.stack.remove_at(below);
    set_target(config, frame, target, value);
    assign_rest(frame, rest);
    true
}

/// The targets take an offset and a rune, a further offset takes the top's place, and items that of the head item. An `Err`
/// changes nothing.
pub fn advances(
    config: &mut Config,
    frame: &mut Frame,
    offset: (Target, Int),
    rune: (Target, Int),
    next: Int,
    items: Stack<Item>,
) -> Result<(), AllocError>
    requires control { 0 < length frame.old.control }
    requires stack { 0 < length frame.old.stack }
    ensures world { OnOk result (config.new ≡ moves.set_global rune.0 (Value.Number rune.1) (moves.set_global offset.0 (Value.Number offset.1) config.old)) }
    ensures frame { OnOk result (frame.new ≡ puts.advanced offset.0 offset.1 rune.0 rune.1 next items frame.old) }
    ensures same { OnErr result (config.new ≡ config.old) }
    ensures err { OnErr result (frame.new ≡ frame.old) }
{
    frame.control.replace_top(items)?;
    let _offset = frame.stack.swap_top(Value::Number(next));
    set_target(config, frame, offset.0, Value::Number(offset.1));
    set_target(config, frame, rune.0, Value::Number(rune.1));
    Ok(())
}
