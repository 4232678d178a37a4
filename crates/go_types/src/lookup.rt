//! Looking names up.
ghost use Rattle.std.specs.Prelude.{◌≡◌, ◌++◌, [], ◌∷◌, map};
ghost use Rattle.std.specs.Option.{option_copied};
ghost use Rattle.unicode.specs.GeneralCategory.{general_category};
ghost use Rattle.go_types.specs.Names as spec;

use crate::known::{Known, PREDECLARED};
use crate::names::{Binding, Callee, Meaning, Shared, Standard};
use std::str;
use unicode::properties::GeneralCategory;

/// The last binding of a name.
pub fn last_named<'a>(name: &[u8], bindings: &'a [Binding]) -> Option<&'a Meaning>
    ensures { option_copied result ≡ spec.last_named name.now bindings.entry.now }
{
    match last_bound(name, bindings) {
        Some(binding) => Some(&binding.meaning),
        None => None,
    }
}

fn last_bound<'a>(name: &[u8], bindings: &'a [Binding]) -> Option<&'a Binding>
    ensures { option_copied result ≡ spec.last_bound name.now bindings.entry.now }
{
    bindings
        .iter()
        .rev()
        .find(|binding| binding.name.bytes() == name)
}

/// What a table says of a name.
fn of_table(name: &[u8], mut table: &[(&[u8], Known)]) -> Option<Known>
    ensures { result ≡ spec.of_table (map (λ e. (e.0.now, e.1)) table.entry.now) name.now }
{
    while let [entry, rest @ ..] = table {
        if entry.0 == name {
            return Some(entry.1);
        }
        table = rest;
    }
    None
}

/// What a predeclared name means.
#[tactic(auto, unfolding(crate::specs::Names::predeclared))]
pub fn predeclared(name: &[u8]) -> Option<Known>
    ensures { result ≡ spec.predeclared name.now }
{
    of_table(name, &PREDECLARED)
}

/// What a name of a package of the standard library means.
pub fn standard(library: Standard, name: &[u8]) -> Option<Known>
    ensures { result ≡ spec.of_table (spec.standard library) name.now }
{
    match library {
        Standard::Fmt => of_table(name, &[(b"Println", Known::Callee(Callee::Println))]),
        Standard::Os => of_table(name, &[(b"Exit", Known::Callee(Callee::Exit))]),
        Standard::Strconv => of_table(name, &[(b"Itoa", Known::Callee(Callee::Itoa))]),
        Standard::Sync => of_table(
            name,
            &[
                (b"Mutex", Known::Shared(Shared::Mutex)),
                (b"WaitGroup", Known::Shared(Shared::Group)),
            ],
        ),
    }
}

/// A method of a mutex.
pub fn mutex_method(mutex: u64, name: &[u8]) -> Option<Known>
    ensures { result ≡ spec.of_table (spec.mutex_methods mutex) name.now }
{
    of_table(
        name,
        &[
            (b"Lock", Known::Callee(Callee::Lock(mutex))),
            (b"Unlock", Known::Callee(Callee::Unlock(mutex))),
        ],
    )
}

/// A method of a wait group.
pub fn group_method(group: u64, name: &[u8]) -> Option<Known>
    ensures { result ≡ spec.of_table (spec.group_methods group) name.now }
{
    of_table(
        name,
        &[
            (b"Add", Known::Callee(Callee::Add(group))),
            (b"Done", Known::Callee(Callee::Done(group))),
            (b"Wait", Known::Callee(Callee::Wait(group))),
        ],
    )
}

/// Whether a name is exported: it begins with an upper-case letter.
#[tactic(auto, unfolding(crate::specs::Names::is_exported))]
pub fn is_exported(name: &[u8]) -> bool
    ensures { result ≡ spec.is_exported name.now }
{
    match str::from_utf8(name) {
        Ok(text) => match text.chars().next() {
            Some(c) => is_upper(c),
            None => false,
        },
        Err(_) => false,
    }
}

/// Whether a character is an upper-case letter.
fn is_upper(c: char) -> bool
    ensures { result ≡ spec.is_upper (general_category c) }
{
    matches!(
        GeneralCategory::for_char(c),
        GeneralCategory::UppercaseLetter
    )
}
