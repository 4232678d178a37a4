//! The names of faults of sources.
ghost use Rattle.std.specs.Prelude.{◌≡◌};
ghost use Rattle.gocov_tools.specs.SourceNames.{source_name};

use go_ast::SourceKind;

/// The name in the line of an answer.
pub fn name_of(kind: SourceKind) -> &'static [u8]
    ensures { result.now ≡ source_name kind }
{
    match kind {
        SourceKind::BadUtf8 => b"BadUtf8",
        SourceKind::BadCharacter => b"BadCharacter",
        SourceKind::BadComment => b"BadComment",
        SourceKind::BadNumber => b"BadNumber",
        SourceKind::BadRune => b"BadRune",
        SourceKind::BadText => b"BadText",
        SourceKind::BadEscape => b"BadEscape",
        SourceKind::CoverName => b"CoverName",
        SourceKind::Unexpected => b"Unexpected",
        SourceKind::Undeclared => b"Undeclared",
        SourceKind::Redeclared => b"Redeclared",
        SourceKind::NotExported => b"NotExported",
        SourceKind::BadName => b"BadName",
        SourceKind::WrongType => b"WrongType",
        SourceKind::WrongCount => b"WrongCount",
        SourceKind::NotConstant => b"NotConstant",
        SourceKind::ConstRange => b"ConstRange",
        SourceKind::ConstDivide => b"ConstDivide",
        SourceKind::UntypedShift => b"UntypedShift",
        SourceKind::BadCall => b"BadCall",
        SourceKind::BadLabel => b"BadLabel",
        SourceKind::DuplicateCase => b"DuplicateCase",
        SourceKind::DuplicateDefault => b"DuplicateDefault",
        SourceKind::MissingReturn => b"MissingReturn",
        SourceKind::UnusedVariable => b"UnusedVariable",
        SourceKind::UnusedLabel => b"UnusedLabel",
        SourceKind::UnusedImport => b"UnusedImport",
    }
}
