//! The mode of a coverage run.
ghost use Rattle.std.specs.Prelude.{◌≡◌};
ghost use Rattle.cov_outside.specs.Mode.{mode_name, combined};

/// How counters count: whether a unit ran, how often, or how often with atomic counters.
#[derive(Clone, Copy, Debug, PartialEq, Eq)]
pub enum Mode {
    Set,
    Count,
    Atomic,
}

impl Mode {
    /// The mode's name on command lines and in profiles.
    pub fn name(self) -> &'static [u8]
        ensures { result.now ≡ mode_name self }
    {
        match self {
            Mode::Set => b"set",
            Mode::Count => b"count",
            Mode::Atomic => b"atomic",
        }
    }

    /// What two counts of one unit make together: their sum, which stops at the greatest count, or in mode set
    /// whether any isn't 0.
    pub fn combine(self, a: u32, b: u32) -> u32
        ensures { result ≡ combined self a b }
    {
        match self {
            Mode::Set => { if a == 0 && b == 0 { 0 } else { 1 } }
            Mode::Count | Mode::Atomic => a.saturating_add(b),
        }
    }
}
