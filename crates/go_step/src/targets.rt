//! Values that targets take.
ghost use Rattle.std.specs.Prelude.{◌≡◌};
ghost use Rattle.go_meaning.specs.Moves as moves;

use go_meaning::{Config, Frame, Target, Value, Variable};

/// A target takes a value. `_`, and a variable that isn't there, drop it.
#[tactic(auto, using(std::proofs::lemmas::List::set_past))]
pub fn set_target(config: &mut Config, frame: &mut Frame, target: Target, value: Value)
    ensures world { config.new ≡ moves.set_global target value config.old }
    ensures frame { frame.new ≡ record frame.old { slots = moves.set_slot target value frame.old.slots } }
{
    match target {
        Target::Blank => {}
        Target::Variable(Variable::Slot(slot)) => {
            if slot < frame.slots.len() as u64 {
                frame.slots.set(slot as usize, Some(value));
            }
        }
        Target::Variable(Variable::Global(global)) => {
            if global < config.globals.len() as u64 {
                config.globals.set(global as usize, value);
            }
        }
    }
}
