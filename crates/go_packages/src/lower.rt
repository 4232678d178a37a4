//! What is used of go_types.
ghost use Rattle.std.specs.Prelude.{◌≡◌, is_some};
ghost use Rattle.go_types.specs.Names as names;

use go_types::predeclared;
pub use go_types::{
    const_value, fill, given_values as given, is_blank, last_named, repeated, type_if, wanted_code,
    wanted_type,
};

/// Whether a name is predeclared.
pub fn is_predeclared(name: &[u8]) -> bool
    ensures { result ≡ is_some (names.predeclared name.now) }
{
    predeclared(name).is_some()
}
