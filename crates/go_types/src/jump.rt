//! Labels, and where `break` and `continue` lead.
ghost use Rattle.std.specs.Prelude.{◌≡◌, Ok};
ghost use Rattle.go_types.specs.Checking.{Gives};
ghost use Rattle.go_types.specs.Walking.{Walks};
ghost use Rattle.go_types.specs.Scopes as spec;

use crate::fault::Refusal;
use crate::walk::{Enclosing, Label, Walk};
use go_ast::{Name, SourceKind};

/// The number of the label with a name.
fn label_at(name: &[u8], labels: &[Label]) -> Option<usize>
    ensures { result ≡ spec.label_at name.now labels.now }
{
    labels.iter().position(|label| label.name.bytes() == name)
}

impl Enclosing {
    /// Whether the statement bears the label with a number.
    fn bears(self, label: u64) -> bool
        ensures { result ≡ spec.bears label self }
    {
        match self.label {
            Some(own) => own == label,
            None => false,
        }
    }

    /// Whether `break` can leave the statement, or, if it must repeat, `continue` go on with it.
    fn is_target(self, must_repeat: bool) -> bool
        ensures { result ≡ spec.is_target must_repeat self }
    {
        self.repeats || !must_repeat
    }
}

/// How many statements stand within the innermost target.
fn innermost(must_repeat: bool, around: &[Enclosing]) -> Option<usize>
    ensures { result ≡ spec.innermost must_repeat around.now }
{
    around.iter().rev().position(|e| e.is_target(must_repeat))
}

/// How many statements stand within the target that bears a label.
fn bearing(must_repeat: bool, label: u64, around: &[Enclosing]) -> Option<usize>
    ensures { result ≡ spec.bearing must_repeat label around.now }
{
    around
        .iter()
        .rev()
        .position(|e| e.bears(label) && e.is_target(must_repeat))
}

/// What was found for a name or a statement at an offset.
fn found(at: u32, target: Option<usize>) -> Result<u64, Refusal>
    ensures { Gives (spec.found at target) result }
{
    match target {
        Some(count) => Ok(count as u64),
        None => Err(Refusal::at(at, SourceKind::BadLabel)),
    }
}

impl Walk {
    /// Declares a label of the function.
    pub fn new_label(&mut self, name: &Name) -> Result<u64, Refusal>
        ensures { Walks (spec.new_label name.now self.old) result self.new }
    {
        if label_at(name.text.bytes(), self.labels.as_slice()).is_some() {
            return Err(Refusal::at(name.at, SourceKind::BadLabel));
        }
        let number = self.labels.len() as u64;
        let label = Label {
            name: name.text.clone()?,
            at: name.at,
        };
        self.labels.push(label)?;
        self.named.push(false)?;
        Ok(number)
    }

    /// Notes that a label is named.
    fn name_label(&mut self, label: usize)
        ensures { spec.name_label label self.old ≡ Ok (tt, self.new) }
    {
        if label < self.named.len() {
            self.named.set(label, true);
        }
    }

    fn jump_label(
        &mut self,
        must_repeat: bool,
        name: &Name,
        label: Option<usize>,
    ) -> Result<u64, Refusal>
        ensures { Walks (spec.jump_label must_repeat name.now label self.old) result self.new }
    {
        let Some(label) = label else {
            return Err(Refusal::at(name.at, SourceKind::BadLabel));
        };
        let count = found(
            name.at,
            bearing(must_repeat, label as u64, self.around.as_slice()),
        )?;
        self.name_label(label);
        Ok(count)
    }

    /// How many of the statements around the place a `break` at an offset leaves before its own; if it must repeat, a
    /// `continue`.
    #[tactic(auto, unfolding(crate::specs::Scopes::jump))]
    pub fn jump(&mut self, must_repeat: bool, at: u32, name: &Option<Name>) -> Result<u64, Refusal>
        ensures { Walks (spec.jump must_repeat at name.now self.old) result self.new }
    {
        match name {
            Some(name) => {
                let label = label_at(name.text.bytes(), self.labels.as_slice());
                self.jump_label(must_repeat, name, label)
            }
            None => found(at, innermost(must_repeat, self.around.as_slice())),
        }
    }
}
