//! Variables that are declared in a body, and what takes values.
ghost use Rattle.std.specs.Prelude.{◌≡◌, Ok, map, IfOk};
ghost use Rattle.go_types.specs.Checking.{Gives};
ghost use Rattle.go_types.specs.Walking as walking;
ghost use Rattle.go_types.specs.Walking.{Walks, as_walking};
ghost use Rattle.go_types.specs.Scopes as spec;

use crate::declare::is_blank;
use crate::fault::Refusal;
use crate::names::Meaning;
use crate::types::ValueType;
use crate::walk::{Place, Walk};
use go_ast::{Name, NoMemory, SourceKind, Target as Written};
use go_meaning::{Target, Variable};
use sqlite_items::Items;
use std::alloc::Global;

/// The variable that is assigned to.
fn place_meant(at: u32, meaning: &Meaning) -> Result<Place, Refusal>
    ensures { Gives (spec.place_meant at meaning.now) result }
{
    match meaning {
        Meaning::Variable(variable, of) => Ok(Place::Variable(*variable, *of)),
        _ => Err(Refusal::at(at, SourceKind::WrongType)),
    }
}

impl Place {
    pub fn is_new(self) -> bool
        ensures { result ≡ spec.is_new self }
    {
        matches!(self, Place::New)
    }

    /// The target of a place that isn't new.
    pub fn old_target(self) -> Target
        ensures { result ≡ spec.old_target self }
    {
        match self {
            Place::Variable(variable, _) => Target::Variable(variable),
            _ => Target::Blank,
        }
    }
}

/// The targets of places of which none is new.
pub fn old_targets(alloc: Global, places: &[Place]) -> Result<Items<Target>, NoMemory>
    ensures { IfOk result (λ ts. ts ≡ map spec.old_target places.now) }
{
    let mut targets = Items::new(alloc);
    for place in places {
        targets.push(place.old_target())?;
    }
    Ok(targets)
}

/// Whether a name is declared.
pub fn any_new(places: &[Place]) -> bool
    ensures { result ≡ spec.any_new places.now }
{
    for place in places {
        if place.is_new() {
            return true;
        }
    }
    false
}

impl Walk {
    /// A variable in the next slot, not read so far.
    fn new_slot(&mut self, at: u32) -> Result<Variable, NoMemory>
        ensures { IfOk result (λ x. spec.new_slot at self.old ≡ Ok (x, self.new)) }
    {
        let slot = self.declared.len() as u64;
        self.declared.push(at)?;
        self.marks.read.push(false)?;
        Ok(Variable::Slot(slot))
    }

    /// Declares a variable of a type.
    pub fn declare(&mut self, name: &Name, of: ValueType) -> Result<Target, Refusal>
        ensures { Walks (spec.declare name.now of self.old) result self.new }
    {
        if is_blank(name.text.bytes()) {
            return Ok(Target::Blank);
        }
        let variable = self.new_slot(name.at)?;
        self.bind(name, Meaning::Variable(variable, of))?;
        Ok(Target::Variable(variable))
    }

    /// Declares variables of these types.
    pub fn declare_all(
        &mut self,
        alloc: Global,
        names: &[Name],
        types: &[ValueType],
    ) -> Result<Items<Target>, Refusal>
        ensures { Walks (spec.declare_all names.now types.now self.old) result self.new }
    {
        let mut targets = Items::new(alloc);
        let mut left = types;
        for name in names {
            let [of, rest @ ..] = left else {
                return Ok(targets);
            };
            let target = self.declare(name, *of)?;
            targets.push(target)?;
            left = rest;
        }
        Ok(targets)
    }

    /// Declares a constant.
    pub fn declare_const(&mut self, name: &Name, meaning: Meaning) -> Result<(), Refusal>
        ensures { Walks (spec.declare_const name.now meaning self.old) result self.new }
    {
        if is_blank(name.text.bytes()) {
            return Ok(());
        }
        self.bind(name, meaning)
    }

    /// The variable with a name.
    pub fn place_named(&self, name: &Name) -> Result<Place, Refusal>
        ensures { Walks (spec.place_named name.now self.now) result self.now }
    {
        let meaning = self.names.meaning_of(name)?;
        place_meant(name.at, &meaning)
    }

    /// What a target is.
    pub fn place_of(&mut self, target: &Written) -> Result<Place, Refusal>
        ensures { Walks (spec.place_of target.now self.old) result self.new }
    {
        match target {
            Written::Plain(name) if is_blank(name.text.bytes()) => Ok(Place::Blank),
            Written::Plain(name) => self.place_named(name),
            Written::Member(first, name) => {
                let meaning = self.names.member(&mut self.marks, first, name)?;
                place_meant(first.at, &meaning)
            }
        }
    }

    /// What targets are, from left to right.
    pub fn places_of(&mut self, alloc: Global, targets: &[Written]) -> Result<Items<Place>, Refusal>
        ensures { Walks (spec.places_of targets.now self.old) result self.new }
    {
        let mut places = Items::new(alloc);
        for target in targets {
            let place = self.place_of(target)?;
            places.push(place)?;
        }
        Ok(places)
    }

    /// Notes that the variable at a place is read.
    pub fn read_at(&mut self, place: Place)
        ensures { spec.read_at place self.old ≡ Ok (tt, self.new) }
    {
        if let Place::Variable(variable, _) = place {
            self.marks.read(variable);
        }
    }

    /// What stands left of `:=`.
    fn defined_place(&self, name: &Name) -> Result<Place, Refusal>
        ensures { Walks (spec.defined_place name.now self.now) result self.now }
    {
        if is_blank(name.text.bytes()) {
            return Ok(Place::Blank);
        }
        match self.in_scope(name.text.bytes()) {
            Some(meaning) => place_meant(name.at, meaning),
            None => Ok(Place::New),
        }
    }

    /// What the names left of `:=` are.
    pub fn defined_places(&self, alloc: Global, names: &[Name]) -> Result<Items<Place>, Refusal>
        ensures { Walks (spec.defined_places names.now self.now) result self.now }
    {
        let mut places = Items::new(alloc);
        for name in names {
            let place = self.defined_place(name)?;
            places.push(place)?;
        }
        Ok(places)
    }

    /// The target of a place; a new name is declared.
    fn target_of(&mut self, name: &Name, place: Place, of: ValueType) -> Result<Target, Refusal>
        ensures { Walks (spec.target_of name.now place of self.old) result self.new }
    {
        match place {
            Place::Blank => Ok(Target::Blank),
            Place::Variable(variable, _) => Ok(Target::Variable(variable)),
            Place::New => self.declare(name, of),
        }
    }

    /// The targets of places; the new names are declared.
    pub fn targets_defined(
        &mut self,
        alloc: Global,
        names: &[Name],
        places: &[Place],
        types: &[ValueType],
    ) -> Result<Items<Target>, Refusal>
        ensures { Walks (spec.targets_defined names.now places.now types.now self.old) result self.new }
    {
        let mut targets = Items::new(alloc);
        let mut left = places;
        let mut kinds = types;
        for name in names {
            let ([place, places @ ..], [of, rest @ ..]) = (left, kinds) else {
                return Ok(targets);
            };
            let target = self.target_of(name, *place, *of)?;
            targets.push(target)?;
            left = places;
            kinds = rest;
        }
        Ok(targets)
    }
}
