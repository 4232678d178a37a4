//! A name, or two with a point between.
use go_ast::Name;

/// The names, and the offset of their end.
#[derive(Drop)]
pub struct Qualified {
    pub name: Name,
    pub member: Option<Name>,
    pub end: u32,
}
