//! The kinds of integer.
ghost use Rattle.std.specs.Prelude.{◌≡◌, ◌-◌, ◌^◌};
ghost use Rattle.go_value.specs.Kinds.{width, is_signed};

/// A kind of integer: signed or not, and how many bits.
#[derive(Clone, Copy, Debug, PartialEq, Eq)]
pub enum Kind {
    I8,
    I16,
    I32,
    I64,
    U8,
    U16,
    U32,
    U64,
}

impl Kind {
    /// Whether there are negative integers of this kind.
    pub fn is_signed(self) -> bool
        ensures { result ≡ is_signed self }
    {
        matches!(self, Kind::I8 | Kind::I16 | Kind::I32 | Kind::I64)
    }

    /// A one for each bit of an integer of this kind.
    pub fn mask(self) -> u64
        ensures { result ≡ 2 ^ width self - 1 }
    {
        match self {
            Kind::I8 | Kind::U8 => u64::from(u8::MAX),
            Kind::I16 | Kind::U16 => u64::from(u16::MAX),
            Kind::I32 | Kind::U32 => u64::from(u32::MAX),
            Kind::I64 | Kind::U64 => u64::MAX,
        }
    }
}
