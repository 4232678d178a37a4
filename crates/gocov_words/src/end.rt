//! The words behind the flags.
ghost use Rattle.std.specs.Prelude.{◌≡◌, ◌≤◌, length, map, slice_get};
ghost use Rattle.std.specs.Option.{option_or, option_copied};
ghost use Rattle.gocov_words.specs.Rules.{last_words, bad_word, too_many};

use crate::heading::CommandName;
use crate::variable::is_file_name;

/// The word at an index.
pub fn word_at<'a>(words: &[&'a str], i: usize) -> Option<&'a str>
    ensures { option_copied result ≡ slice_get (map (λ w. w.now) words.now) i }
{
    match words.get(i) {
        None => None,
        Some(word) => Some(*word),
    }
}

/// The index of a bad FILE.
fn bad_word(command: CommandName, words: &[&str], end: usize) -> Option<usize>
    ensures { result ≡ bad_word command end (map (λ w. w.now) words.now) }
{
    match (command, word_at(words, end)) {
        (CommandName::Cover, Some(file)) if !is_file_name(file) => Some(end),
        _ => None,
    }
}

fn last_words(command: CommandName) -> usize
    ensures { result ≡ last_words command }
{
    match command {
        CommandName::Cover | CommandName::Run => 1,
        CommandName::Covdata(_) => 0,
    }
}

/// The first word from an index on that is bad or one too many, where flags end.
pub fn misplaced(command: CommandName, words: &[&str], end: usize) -> Option<usize>
    requires { end ≤ length words.now }
    ensures { result ≡ option_or (bad_word command end (map (λ w. w.now) words.now)) (too_many command end (length words.now)) }
{
    if let Some(i) = bad_word(command, words, end) {
        return Some(i);
    }
    let most = end + last_words(command);
    if most < words.len() { Some(most) } else { None }
}
