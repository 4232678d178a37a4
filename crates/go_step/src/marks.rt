//! `break`, `continue` and `fallthrough`: control past marks.
ghost use Rattle.std.specs.Prelude.{◌≡◌, ◌<◌, length, drop};
ghost use Rattle.go_meaning.specs.Moves as moves;
ghost use Rattle.go_step.specs.Puts as puts;

use go_meaning::{Frame, Item, Stack, Value};

// How many values the statement of a mark keeps on the stack.
fn mark(item: &Item) -> Option<u64>
    ensures { result ≡ moves.mark item.now }
{
    match item {
        Item::Leave | Item::Next(_, _) => Some(0),
        Item::Each(_, _) => Some(2),
        Item::Pull(_, _) => Some(1),
        _ => None,
    }
}

// Takes items from under the head up to a mark, past that many others, with the values of those.
#[tactic(auto, using(crate::proofs::PastMarks::past_other, crate::proofs::PastMarks::past_one_control, crate::proofs::PastMarks::past_one_values, crate::proofs::PastMarks::at_last, crate::proofs::PastMarks::at_end))]
fn leave(control: &mut Stack<Item>, stack: &mut Stack<Value>, marks: u64)
    requires { 0 < length control.old }
    ensures head { 0 < length control.new }
    ensures control { drop 1 control.new ≡ (moves.cut_past (drop 1 control.old) marks).control }
    ensures values { stack.new ≡ drop (moves.cut_past (drop 1 control.old) marks).values stack.old }
{
    let mut left = marks;
    while let Some(item) = control.peek(1) {
        match mark(item) {
            None => control.drop_top(1),
            Some(values) => {
                if left == 0 {
                    return;
                }
                left -= 1;
                stack.drop_top(values);
                control.drop_top(1);
            }
        }
    }
}

/// Leaves a statement, past so many others: its mark goes too, with its values.
#[tactic(auto, using(crate::proofs::PastMarks::broken_control, crate::proofs::PastMarks::broken_values, crate::proofs::PastMarks::past_of, crate::proofs::PastMarks::past_none))]
pub fn breaks(frame: &mut Frame, marks: u64)
    requires { 0 < length frame.old.control }
    ensures { frame.new ≡ puts.cut_frame frame.old (moves.broken (drop 1 frame.old.control) marks) }
{
    leave(&mut frame.control, &mut frame.stack, marks);
    if let Some(item) = frame.control.peek(1) {
        frame.stack.drop_top(mark(item).unwrap_or(0));
    }
    frame.control.drop_top(2);
}

/// Goes on with a statement, past so many others: its mark becomes the head.
pub fn continues(frame: &mut Frame, marks: u64)
    requires { 0 < length frame.old.control }
    ensures { frame.new ≡ puts.cut_frame frame.old (moves.cut_past (drop 1 frame.old.control) marks) }
{
    leave(&mut frame.control, &mut frame.stack, marks);
    frame.control.drop_top(1);
}

/// Goes on with a list, before the mark that comes next.
pub fn falls(frame: &mut Frame, list: u64)
    requires { 0 < length frame.old.control }
    ensures { frame.new ≡ puts.cut_frame frame.old (moves.fallen (drop 1 frame.old.control) list) }
{
    leave(&mut frame.control, &mut frame.stack, 0);
    let _head = frame.control.swap_top(Item::Run(list, 0));
}
