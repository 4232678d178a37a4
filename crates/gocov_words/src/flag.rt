//! Flags.
ghost use Rattle.std.specs.Prelude.{◌≡◌, option_map, IfSome};
ghost use Rattle.gocov_words.specs.Table.{row_named};
ghost use Rattle.gocov_words.specs.Flags.{row_of, flag_name, accepts, is_boolean};
ghost use Rattle.gocov_words.specs.declared.heading.CommandName.TheVariants as commands;

use crate::heading::CommandName;
use crate::list::is_list;
use crate::sub::Sub;
use crate::value::{bool_in, mode_named, steps_in};
use crate::variable::is_variable;

/// A flag of some command.
#[derive(Clone, Copy, Debug, PartialEq, Eq)]
pub enum Flag {
    /// `-i`
    Input,
    /// `-o`
    Output,
    /// `-pkg`
    Patterns,
    /// `-mode`
    Mode,
    /// `-var`
    Variable,
    /// `-coverdir`
    CoverDirectory,
    /// `-serial`
    Serial,
    /// `-max-steps`
    MaxSteps,
}

fn cover_flag(name: &str) -> Option<Flag>
    ensures row { option_map (row_of commands.Cover) result ≡ row_named commands.Cover name.now }
    ensures name { IfSome result (λ flag. name.now ≡ flag_name flag) }
{
    if name == "mode" {
        Some(Flag::Mode)
    } else if name == "var" {
        Some(Flag::Variable)
    } else if name == "o" {
        Some(Flag::Output)
    } else {
        None
    }
}

fn run_flag(name: &str) -> Option<Flag>
    ensures row { option_map (row_of commands.Run) result ≡ row_named commands.Run name.now }
    ensures name { IfSome result (λ flag. name.now ≡ flag_name flag) }
{
    if name == "mode" {
        Some(Flag::Mode)
    } else if name == "coverdir" {
        Some(Flag::CoverDirectory)
    } else if name == "serial" {
        Some(Flag::Serial)
    } else if name == "max-steps" {
        Some(Flag::MaxSteps)
    } else {
        None
    }
}

fn data_flag(sub: Sub, name: &str) -> Option<Flag>
    ensures row { option_map (row_of (commands.Covdata sub)) result ≡ row_named (commands.Covdata sub) name.now }
    ensures name { IfSome result (λ flag. name.now ≡ flag_name flag) }
{
    if name == "i" {
        Some(Flag::Input)
    } else if name == "o" && sub.puts() {
        Some(Flag::Output)
    } else if name == "pkg" && sub.reports() {
        Some(Flag::Patterns)
    } else {
        None
    }
}

/// The flag of a name, where the command knows it.
pub fn flag_named(command: CommandName, name: &str) -> Option<Flag>
    ensures row { option_map (row_of command) result ≡ row_named command name.now }
    ensures name { IfSome result (λ flag. name.now ≡ flag_name flag) }
{
    match command {
        CommandName::Cover => cover_flag(name),
        CommandName::Run => run_flag(name),
        CommandName::Covdata(sub) => data_flag(sub, name),
    }
}

impl Flag {
    /// Whether it takes the value.
    pub fn accepts(self, value: &str) -> bool
        ensures { result ≡ accepts self value.now }
    {
        match self {
            Flag::Input | Flag::Patterns => is_list(value),
            Flag::Output | Flag::CoverDirectory => !value.is_empty(),
            Flag::Mode => mode_named(value).is_some(),
            Flag::Variable => is_variable(value),
            Flag::Serial => bool_in(value).is_some(),
            Flag::MaxSteps => steps_in(value).is_some(),
        }
    }

    /// Whether it is true without a value.
    pub fn is_boolean(self) -> bool
        ensures { result ≡ is_boolean self }
    {
        match self {
            Flag::Serial => true,
            Flag::Input
            | Flag::Output
            | Flag::Patterns
            | Flag::Mode
            | Flag::Variable
            | Flag::CoverDirectory
            | Flag::MaxSteps => false,
        }
    }
}
