//! The commands of `covdata`.
ghost use Rattle.std.specs.Prelude.{◌≡◌};
ghost use Rattle.gocov_words.specs.Subs as subs;
ghost use Rattle.gocov_words.specs.Words.{sub_named};

/// A command of `covdata`.
#[derive(Clone, Copy, Debug, PartialEq, Eq)]
pub enum Sub {
    Textfmt,
    Percent,
    Func,
    Pkglist,
    Merge,
    Subtract,
    Intersect,
    Debugdump,
}

/// The command that a word names.
pub(crate) fn sub_named(word: &str) -> Option<Sub>
    ensures { result ≡ sub_named word.now }
{
    if word == "textfmt" {
        Some(Sub::Textfmt)
    } else if word == "percent" {
        Some(Sub::Percent)
    } else if word == "func" {
        Some(Sub::Func)
    } else if word == "pkglist" {
        Some(Sub::Pkglist)
    } else if word == "merge" {
        Some(Sub::Merge)
    } else if word == "subtract" {
        Some(Sub::Subtract)
    } else if word == "intersect" {
        Some(Sub::Intersect)
    } else if word == "debugdump" {
        Some(Sub::Debugdump)
    } else {
        None
    }
}

impl Sub {
    /// Whether it puts files, so that it needs `-o`, which no other knows.
    pub fn puts(self) -> bool
        ensures { result ≡ subs.puts self }
    {
        match self {
            Sub::Textfmt | Sub::Merge | Sub::Subtract | Sub::Intersect => true,
            Sub::Percent | Sub::Func | Sub::Pkglist | Sub::Debugdump => false,
        }
    }

    /// Whether it reports on packages, so that it knows `-pkg`.
    pub fn reports(self) -> bool
        ensures { result ≡ subs.reports self }
    {
        match self {
            Sub::Textfmt | Sub::Percent | Sub::Func | Sub::Pkglist | Sub::Debugdump => true,
            Sub::Merge | Sub::Subtract | Sub::Intersect => false,
        }
    }

    /// Whether it takes exactly two directories.
    pub fn takes_two(self) -> bool
        ensures { result ≡ subs.takes_two self }
    {
        match self {
            Sub::Subtract | Sub::Intersect => true,
            Sub::Textfmt | Sub::Percent | Sub::Func | Sub::Pkglist | Sub::Merge | Sub::Debugdump =>
                false,
        }
    }
}
