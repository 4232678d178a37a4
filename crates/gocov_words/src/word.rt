//! Flags in one word.
ghost use Rattle.std.specs.Prelude.{◌≡◌};
ghost use Rattle.std.specs.Option.{option_copied};
ghost use Rattle.gocov_words.specs.Word as spec;

/// The text of a flag, behind its one or two dashes, where the word is a flag. That of `--` is empty.
pub fn flag_text(word: &str) -> Option<&str>
    ensures { option_copied result ≡ spec.flag_text word.now }
{
    let text = word.strip_prefix('-')?;
    if text.is_empty() {
        return None;
    }
    Some(text.strip_prefix('-').unwrap_or(text))
}

/// The name in a flag's text, and the value behind `=`, where there is one.
pub fn name_and_value(text: &str) -> (&str, Option<&str>)
    ensures name { result.0.now ≡ spec.name_in text.now }
    ensures value { option_copied result.1 ≡ spec.value_in text.now }
{
    match text.split_once('=') {
        Some((name, value)) => (name, Some(value)),
        None => (text, None),
    }
}
