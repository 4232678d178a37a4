//! The words before the flags.
ghost use Rattle.std.specs.Prelude.{◌≡◌, ◌≤◌, IfOk, length, map};
ghost use Rattle.gocov_words.specs.Words.{heading};
ghost use Rattle.gocov_words.specs.Line.{heading_words};
ghost use Rattle.gocov_words.specs.Rules.{last_words};

use crate::fault::WordsFault;
use crate::sub::{Sub, sub_named};

/// What the first words name.
#[derive(Clone, Copy, Debug, PartialEq, Eq)]
pub enum CommandName {
    Cover,
    Run,
    Covdata(Sub),
}

/// The command that the first words name.
pub fn read_heading(words: &[&str]) -> Result<CommandName, WordsFault>
    ensures command { result ≡ heading (map (λ w. w.now) words.now) }
    ensures within { IfOk result (λ command. heading_words command ≤ length words.now) }
{
    let [command, after @ ..] = words else {
        return Err(WordsFault::Usage(0));
    };
    if *command == "cover" {
        return Ok(CommandName::Cover);
    }
    if *command == "run" {
        return Ok(CommandName::Run);
    }
    if *command != "covdata" {
        return Err(WordsFault::Usage(0));
    }
    match after {
        [] => Err(WordsFault::Usage(1)),
        [sub, ..] => sub_named(sub)
            .map(CommandName::Covdata)
            .ok_or(WordsFault::Usage(1)),
    }
}
