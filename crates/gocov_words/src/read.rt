//! The meaning of words.
ghost use Rattle.std.specs.Prelude.{map};
ghost use Rattle.gocov_words.specs.Words.{meaning, Means};

use crate::command::Command;
use crate::cover::read_cover;
use crate::data::read_data;
use crate::fault::WordsFault;
use crate::heading::{CommandName, read_heading};
use crate::run::read_run;
use std::alloc::Global;

/// What the words after the program's name mean: a command, or why there is none.
///
/// # Errors
///
/// `Usage` with the index of a word, counted from 0, that breaks the rules, and `Limit` of directories.
pub fn read_words(alloc: Global, words: &[&str]) -> Result<Command, WordsFault>
    ensures { Means result (meaning (map (λ w. w.now) words.now)) }
{
    match read_heading(words)? {
        CommandName::Cover => Ok(Command::Cover(read_cover(alloc, words)?)),
        CommandName::Run => Ok(Command::Run(read_run(alloc, words)?)),
        CommandName::Covdata(sub) => Ok(Command::Covdata(read_data(alloc, sub, words)?)),
    }
}
