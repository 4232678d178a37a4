//! The next flag.
ghost use Rattle.std.specs.Prelude.{map};
ghost use Rattle.gocov_words.specs.Fronts.{IsFront, IsFlagFront};

use crate::flag::{Flag, flag_named};
use crate::heading::CommandName;
use crate::word::{flag_text, name_and_value};

/// What words begin with where flags may stand.
pub enum Front<'a> {
    /// No flag. So many words end the flags: 1 for `--`, else 0.
    End(usize),
    /// A flag that the command doesn't know.
    Unknown,
    /// A flag whose value is missing behind the last word.
    Valueless,
    /// A flag, its value, and the number of its words.
    Flag(Flag, &'a str, usize),
}

/// A flag with its text behind the dashes and the words after it.
fn flag_front<'a>(command: CommandName, text: &'a str, after: &[&'a str]) -> Front<'a>
    ensures { IsFlagFront command text.now (map (λ w. w.now) after.now) result }
{
    let (name, value) = name_and_value(text);
    let Some(flag) = flag_named(command, name) else {
        return Front::Unknown;
    };
    match value {
        Some(value) => Front::Flag(flag, value, 1),
        None if flag.is_boolean() => Front::Flag(flag, "true", 1),
        None => match after {
            [] => Front::Valueless,
            [value, ..] => Front::Flag(flag, value, 2),
        },
    }
}

/// What words begin with where flags may stand.
pub fn front_of<'a>(command: CommandName, words: &[&'a str]) -> Front<'a>
    ensures { IsFront command (map (λ w. w.now) words.now) result }
{
    let [word, after @ ..] = words else {
        return Front::End(0);
    };
    let Some(text) = flag_text(word) else {
        return Front::End(0);
    };
    if text.is_empty() {
        return Front::End(1);
    }
    flag_front(command, text, after)
}
