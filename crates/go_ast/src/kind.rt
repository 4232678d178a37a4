//! What can be wrong with a source.

/// Why a text has no tokens.
#[derive(Clone, Copy, Debug, PartialEq, Eq)]
pub enum LexKind {
    /// A byte that begins no UTF-8 character.
    BadUtf8,
    /// A NUL, a byte order mark, or a character that begins no token.
    BadCharacter,
    /// A `/*` without `*/`.
    BadComment,
    /// A number that is no integer literal.
    BadNumber,
    /// A rune literal that is empty, unclosed or of more than one character.
    BadRune,
    /// An unclosed text literal.
    BadText,
    /// An unknown escape.
    BadEscape,
}

/// Why a source is refused.
#[derive(Clone, Copy, Debug, PartialEq, Eq)]
pub enum SourceKind {
    BadUtf8,
    BadCharacter,
    BadComment,
    BadNumber,
    BadRune,
    BadText,
    BadEscape,
    /// The identifier is kept for the counters.
    CoverName,
    /// A token that can't follow those before it.
    Unexpected,
    Undeclared,
    Redeclared,
    NotExported,
    BadName,
    WrongType,
    WrongCount,
    NotConstant,
    ConstRange,
    ConstDivide,
    UntypedShift,
    BadCall,
    BadLabel,
    DuplicateCase,
    DuplicateDefault,
    MissingReturn,
    UnusedVariable,
    UnusedLabel,
    UnusedImport,
}

impl From<LexKind> for SourceKind {
    ghost use Rattle.std.specs.Prelude.{◌≡◌};
    ghost use Rattle.go_ast.specs.Kinds.{source_kind};

    ghost from_gives = { λ kind source. source ≡ source_kind kind };

    fn from(kind: LexKind) -> SourceKind {
        match kind {
            LexKind::BadUtf8 => SourceKind::BadUtf8,
            LexKind::BadCharacter => SourceKind::BadCharacter,
            LexKind::BadComment => SourceKind::BadComment,
            LexKind::BadNumber => SourceKind::BadNumber,
            LexKind::BadRune => SourceKind::BadRune,
            LexKind::BadText => SourceKind::BadText,
            LexKind::BadEscape => SourceKind::BadEscape,
        }
    }
}
