//! The flags of a line.
ghost use Rattle.std.specs.Prelude.{◌≡◌, ◌≤◌, false, length, drop, map};
ghost use Rattle.gocov_words.specs.Line.{cut};
ghost use Rattle.gocov_words.specs.Read.{shown, with_value, ReadsFlags};

use crate::flag::Flag;
use crate::front::{Front, front_of};
use crate::heading::CommandName;

/// A value, and the index of its flag's word.
#[derive(Clone, Copy)]
pub struct Value<'a> {
    pub at: usize,
    pub text: &'a str,
}

/// The values of the last flag of each name.
#[derive(Clone, Copy)]
pub struct Values<'a> {
    pub input: Option<Value<'a>>,
    pub output: Option<Value<'a>>,
    pub patterns: Option<Value<'a>>,
    pub mode: Option<Value<'a>>,
    pub variable: Option<Value<'a>>,
    pub cover_directory: Option<Value<'a>>,
    pub serial: Option<Value<'a>>,
    pub max_steps: Option<Value<'a>>,
}

impl<'a> Values<'a> {
    fn put(&mut self, flag: Flag, value: Value<'a>)
        ensures { self.new ≡ with_value self.old flag value.entry }
    {
        match flag {
            Flag::Input => self.input = Some(value),
            Flag::Output => self.output = Some(value),
            Flag::Patterns => self.patterns = Some(value),
            Flag::Mode => self.mode = Some(value),
            Flag::Variable => self.variable = Some(value),
            Flag::CoverDirectory => self.cover_directory = Some(value),
            Flag::Serial => self.serial = Some(value),
            Flag::MaxSteps => self.max_steps = Some(value),
        }
    }
}

/// The values of flags, and the index of the first word after them.
#[derive(Clone, Copy)]
pub struct Flags<'a> {
    pub values: Values<'a>,
    pub end: usize,
}

/// Reads the flags from an index on. An error is the index that breaks the rules.
pub fn read_flags<'a>(
    command: CommandName,
    words: &[&'a str],
    from: usize,
) -> Result<Flags<'a>, usize>
    requires { from ≤ length words.now }
    ensures { ReadsFlags command (cut command false from (drop from (map (λ w. w.now) words.now))) (map (λ w. w.now) words.now) result }
{
    let mut values = Values {
        input: None,
        output: None,
        patterns: None,
        mode: None,
        variable: None,
        cover_directory: None,
        serial: None,
        max_steps: None,
    };
    let mut at = from;
    loop {
        match front_of(command, &words[at..]) {
            Front::End(n) => {
                return Ok(Flags {
                    values,
                    end: at + n,
                });
            }
            Front::Unknown => return Err(at),
            Front::Valueless => return Err(words.len()),
            Front::Flag(flag, text, n) => {
                if !flag.accepts(text) {
                    return Err(at);
                }
                values.put(flag, Value { at, text });
                at += n;
            }
        }
    }
}
