//! Why a module isn't accepted.
use go_ast::{NoMemory, SourceKind};

/// Why a module isn't accepted.
#[derive(Debug, Drop)]
pub enum CheckRefusal {
    /// The first broken rule: the numbers of the package and of its file, the offset there and the kind.
    At {
        package: u64,
        file: u64,
        offset: u32,
        kind: SourceKind,
    },
    NoMemory,
}

impl From<NoMemory> for CheckRefusal {
    ghost use Rattle.std.specs.Prelude.{◌≡◌};
    ghost use Rattle.go_check.specs.declared.refusal.CheckRefusal.TheVariants as refusal;

    ghost from_gives = { λ _ e. e ≡ refusal.NoMemory };

    fn from(_e: NoMemory) -> CheckRefusal {
        CheckRefusal::NoMemory
    }
}
