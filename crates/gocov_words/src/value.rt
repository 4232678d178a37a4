//! Values of flags.
ghost use Rattle.std.specs.Prelude.{◌≡◌};
ghost use Rattle.gocov_words.specs.Values as values;

use cov_outside::Mode;

/// The mode of a name.
pub fn mode_named(value: &str) -> Option<Mode>
    ensures { result ≡ values.mode_named value.now }
{
    if value == "set" {
        Some(Mode::Set)
    } else if value == "count" {
        Some(Mode::Count)
    } else if value == "atomic" {
        Some(Mode::Atomic)
    } else {
        None
    }
}

fn is_true(value: &str) -> bool
    ensures { result ≡ values.is_true value.now }
{
    value == "1"
        || value == "t"
        || value == "T"
        || value == "true"
        || value == "TRUE"
        || value == "True"
}

fn is_false(value: &str) -> bool
    ensures { result ≡ values.is_false value.now }
{
    value == "0"
        || value == "f"
        || value == "F"
        || value == "false"
        || value == "FALSE"
        || value == "False"
}

/// The truth value that a word is.
pub fn bool_in(value: &str) -> Option<bool>
    ensures { result ≡ values.bool_in value.now }
{
    if is_true(value) {
        Some(true)
    } else if is_false(value) {
        Some(false)
    } else {
        None
    }
}

fn are_digits(value: &str) -> bool
    ensures { result ≡ values.are_digits value.now }
{
    !value.is_empty() && value.bytes().all(|b| b.is_ascii_digit())
}

/// The limit of steps, 1 to 10,000,000, that decimal digits are.
pub fn steps_in(value: &str) -> Option<u32>
    ensures { result ≡ values.steps_in value.now }
{
    if !are_digits(value) {
        return None;
    }
    match value.parse::<u32>() {
        Ok(steps) if 1 <= steps && steps <= 10_000_000 => Some(steps),
        _ => None,
    }
}
