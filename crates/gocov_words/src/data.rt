//! The arguments of `covdata`.
ghost use Rattle.std.specs.Prelude.{◌≡◌, ◌≤◌, MatchResult, map, length, Ok};
ghost use Rattle.gocov_words.specs.Data.{checked, checked_dirs};
ghost use Rattle.gocov_words.specs.Words.{meaning_under, Refuses};
ghost use Rattle.gocov_words.specs.declared.heading.CommandName.TheVariants as commands;
ghost use Rattle.gocov_words.specs.declared.command.Command.TheVariants as command;

use crate::command::DataArgs;
use crate::end::misplaced;
use crate::fault::WordsFault;
use crate::flags::{Value, Values, read_flags};
use crate::heading::CommandName;
use crate::list::count_pieces;
use crate::sub::Sub;
use crate::text::{list_of, text_of};
use cov_outside::Which;
use std::alloc::Global;

/// Whether the directories of `-i` are as many as they should be.
fn check_dirs(sub: Sub, input: Value<'_>) -> Result<(), WordsFault>
    ensures { result ≡ checked_dirs sub input.entry }
{
    let dirs = count_pieces(input.text);
    if sub.takes_two() && dirs != 2 {
        return Err(WordsFault::Usage(input.at));
    }
    if dirs > 1024 {
        return Err(WordsFault::Limit(Which::Directories));
    }
    Ok(())
}

/// Whether nothing is missing in so many words, and the directories are as many as they should be.
fn check(sub: Sub, values: &Values<'_>, count: usize) -> Result<(), WordsFault>
    ensures { result ≡ checked sub values.now count }
{
    let Some(input) = values.input else {
        return Err(WordsFault::Usage(count));
    };
    if sub.puts() && values.output.is_none() {
        return Err(WordsFault::Usage(count));
    }
    check_dirs(sub, input)
}

/// Reads the flags of a command of `covdata`, in a line of words that names it.
pub fn read_data(alloc: Global, sub: Sub, words: &[&str]) -> Result<DataArgs, WordsFault>
    requires { 2 ≤ length words.now }
    ensures { let there = meaning_under (Ok (commands.Covdata sub)) (map (λ w. w.now) words.now) in MatchResult result (λ args. there ≡ Ok (command.Covdata args)) (λ fault. Refuses fault there) }
{
    let flags = match read_flags(CommandName::Covdata(sub), words, 2) {
        Ok(flags) => flags,
        Err(at) => return Err(WordsFault::Usage(at)),
    };
    if let Some(at) = misplaced(CommandName::Covdata(sub), words, flags.end) {
        return Err(WordsFault::Usage(at));
    }
    check(sub, &flags.values, words.len())?;
    Ok(DataArgs {
        sub,
        dirs: list_of(alloc, flags.values.input)?,
        out: text_of(alloc, flags.values.output)?,
        pkg: list_of(alloc, flags.values.patterns)?,
    })
}
