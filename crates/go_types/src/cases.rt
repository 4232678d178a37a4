//! The constants of one `switch`, of which no two are equal, and its one `default`.
ghost use Rattle.std.specs.Prelude.{◌≡◌, Ok};
ghost use Rattle.go_types.specs.Checking.{Gives};
ghost use Rattle.go_types.specs.Cases as spec;

use crate::constant::Constant;
use crate::fault::Refusal;
use go_ast::SourceKind;
use sqlite_items::Items;
use std::alloc::Global;

/// What the clauses of a `switch` or `select` had so far.
#[derive(Debug, Drop)]
pub struct Seen {
    pub has_default: bool,
    pub values: Items<Constant>,
}

impl Constant {
    /// Whether two constants are equal integers or strings.
    fn is_one(&self, other: &Constant) -> bool
        ensures { result ≡ spec.are_one self.now other.now }
    {
        match (self, other) {
            (Constant::Number(a), Constant::Number(b)) => *a == *b,
            (Constant::Text(a), Constant::Text(b)) => a.bytes() == b.bytes(),
            _ => false,
        }
    }
}

fn is_seen(constant: &Constant, values: &[Constant]) -> bool
    ensures { result ≡ spec.is_seen constant.now values.now }
{
    values.iter().any(|value| constant.is_one(value))
}

impl Seen {
    pub fn new(alloc: Global) -> Seen
        ensures { result ≡ spec.no_case }
    {
        Seen {
            has_default: false,
            values: Items::new(alloc),
        }
    }

    /// With a constant at an offset, if there is one.
    pub fn with(self, at: u32, constant: Option<Constant>) -> Result<Seen, Refusal>
        ensures { Gives (spec.seen_with at constant self) result }
    {
        let Some(constant) = constant else {
            return Ok(self);
        };
        if is_seen(&constant, self.values.as_slice()) {
            return Err(Refusal::at(at, SourceKind::DuplicateCase));
        }
        let Seen {
            has_default,
            mut values,
        } = self;
        values.push(constant)?;
        Ok(Seen {
            has_default,
            values,
        })
    }

    /// With the `default` of a statement at an offset.
    pub fn with_default(self, at: u32) -> Result<Seen, Refusal>
        ensures { Gives (spec.with_default at self) result }
    {
        if self.has_default {
            return Err(Refusal::at(at, SourceKind::DuplicateDefault));
        }
        Ok(Seen {
            has_default: true,
            values: self.values,
        })
    }
}
