//! The arguments of `cover`.
ghost use Rattle.std.specs.Prelude.{◌≡◌, ◌≤◌, MatchResult, map, length, unwrap_or, Ok, Some};
ghost use Rattle.gocov_words.specs.Words.{meaning_under, Refuses};
ghost use Rattle.gocov_words.specs.declared.heading.CommandName.TheVariants as commands;
ghost use Rattle.gocov_words.specs.declared.command.Command.TheVariants as command;
ghost use Rattle.gocov_words.specs.Asked.{mode_in, variable_in};

use crate::command::CoverArgs;
use crate::end::{misplaced, word_at};
use crate::fault::WordsFault;
use crate::flags::{Value, read_flags};
use crate::heading::CommandName;
use crate::value::mode_named;
use cov_outside::{Mode, Text};
use std::alloc::Global;

/// The mode of a value that names one.
fn mode_of(value: Value<'_>) -> Mode
    ensures { result ≡ unwrap_or (mode_in (Some value.entry)) Mode.Set }
{
    mode_named(value.text).unwrap_or(Mode::Set)
}

/// The name of the counters' variable.
fn variable_of<'a>(value: Option<Value<'a>>) -> &'a str
    ensures { result.now ≡ variable_in value.entry }
{
    match value {
        Some(value) => value.text,
        None => "GoCover",
    }
}

/// Reads the flags and the last word of `cover`, in a line of words that names it.
pub fn read_cover(alloc: Global, words: &[&str]) -> Result<CoverArgs, WordsFault>
    requires { 1 ≤ length words.now }
    ensures { let there = meaning_under (Ok commands.Cover) (map (λ w. w.now) words.now) in MatchResult result (λ args. there ≡ Ok (command.Cover args)) (λ fault. Refuses fault there) }
{
    let flags = match read_flags(CommandName::Cover, words, 1) {
        Ok(flags) => flags,
        Err(at) => return Err(WordsFault::Usage(at)),
    };
    if let Some(at) = misplaced(CommandName::Cover, words, flags.end) {
        return Err(WordsFault::Usage(at));
    }
    let Some(mode) = flags.values.mode else {
        return Err(WordsFault::Usage(words.len()));
    };
    let Some(out) = flags.values.output else {
        return Err(WordsFault::Usage(words.len()));
    };
    let Some(file) = word_at(words, flags.end) else {
        return Err(WordsFault::Usage(words.len()));
    };
    Ok(CoverArgs {
        mode: mode_of(mode),
        var: Text::of(alloc, variable_of(flags.values.variable).as_bytes())?,
        out: Text::of(alloc, out.text.as_bytes())?,
        file: Text::of(alloc, file.as_bytes())?,
    })
}
