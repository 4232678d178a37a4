//! What a package variable begins with.
use go_meaning::Global as Variable;
use go_types::ValueType;

/// The type of a package variable and what it begins with.
#[derive(Drop)]
pub struct Initial {
    pub of: ValueType,
    pub global: Variable,
}
