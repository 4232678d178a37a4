//! The arguments of `run`.
ghost use Rattle.std.specs.Prelude.{◌≡◌, ◌≤◌, MatchResult, map, length, Ok};
ghost use Rattle.gocov_words.specs.Words.{meaning_under, Refuses};
ghost use Rattle.gocov_words.specs.declared.heading.CommandName.TheVariants as commands;
ghost use Rattle.gocov_words.specs.declared.command.Command.TheVariants as command;
ghost use Rattle.gocov_words.specs.Asked.{mode_in, serial_in, max_steps_in, clash_in};

use crate::command::RunArgs;
use crate::end::{misplaced, word_at};
use crate::fault::WordsFault;
use crate::flags::{Values, read_flags};
use crate::heading::CommandName;
use crate::text::text_of;
use crate::value::{bool_in, mode_named, steps_in};
use cov_outside::{Mode, Text};
use std::alloc::Global;

const DEFAULT_STEPS: u32 = 1_000_000;

/// The mode that is asked for, if one is.
fn mode_of(values: &Values<'_>) -> Option<Mode>
    ensures { result ≡ mode_in values.now.mode }
{
    mode_named(values.mode?.text)
}

/// Whether the run is serial.
fn is_serial(values: &Values<'_>) -> bool
    ensures { result ≡ serial_in values.now.serial }
{
    match values.serial {
        None => false,
        Some(value) => bool_in(value.text).unwrap_or(false),
    }
}

/// The limit of steps.
fn max_steps(values: &Values<'_>) -> u32
    ensures { result ≡ max_steps_in values.now.max_steps }
{
    match values.max_steps {
        None => DEFAULT_STEPS,
        Some(value) => steps_in(value.text).unwrap_or(DEFAULT_STEPS),
    }
}

/// The index of a mode without a pod, or of one that needs the serial schedule.
fn clash(values: &Values<'_>) -> Option<usize>
    ensures { result ≡ clash_in values.now }
{
    let mode = values.mode?;
    if values.cover_directory.is_none() {
        return Some(mode.at);
    }
    if mode_of(values) == Some(Mode::Count) && !is_serial(values) {
        return Some(mode.at);
    }
    None
}

/// Reads the flags and the last word of `run`, in a line of words that names it.
pub fn read_run(alloc: Global, words: &[&str]) -> Result<RunArgs, WordsFault>
    requires { 1 ≤ length words.now }
    ensures { let there = meaning_under (Ok commands.Run) (map (λ w. w.now) words.now) in MatchResult result (λ args. there ≡ Ok (command.Run args)) (λ fault. Refuses fault there) }
{
    let flags = match read_flags(CommandName::Run, words, 1) {
        Ok(flags) => flags,
        Err(at) => return Err(WordsFault::Usage(at)),
    };
    if let Some(at) = misplaced(CommandName::Run, words, flags.end) {
        return Err(WordsFault::Usage(at));
    }
    let Some(dir) = word_at(words, flags.end) else {
        return Err(WordsFault::Usage(words.len()));
    };
    if let Some(at) = clash(&flags.values) {
        return Err(WordsFault::Usage(at));
    }
    Ok(RunArgs {
        mode: mode_of(&flags.values).unwrap_or(Mode::Set),
        coverdir: text_of(alloc, flags.values.cover_directory)?,
        serial: is_serial(&flags.values),
        max_steps: max_steps(&flags.values),
        dir: Text::of(alloc, dir.as_bytes())?,
    })
}
