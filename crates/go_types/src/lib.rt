//! Checks modules of Go source: types, constants, names.
#![tactic(auto)]

mod binary;
mod call;
mod cases;
mod check;
mod clause;
mod conditions;
mod constant;
mod conversion;
mod declaration;
mod declare;
mod ending;
mod fault;
mod given;
mod jump;
mod kinds;
mod known;
mod lifo;
mod literal;
mod lookup;
mod names;
mod operand;
mod operator;
mod package_names;
mod place;
mod plain;
mod queue;
mod scope;
mod simple;
mod target;
mod term;
mod types;
mod values;
mod walk;

pub use call::zero_value;
pub use cases::Seen;
pub use check::{check_value, type_of};
pub use clause::{case_head, comm_of, comm_seen};
pub use conditions::{condition, condition_if, range_node, ranged, tag};
pub use constant::{Constant, binary_constant, converted, unary_constant, within};
pub use conversion::{Conversion, conversion_to};
pub use declaration::const_value;
pub use declare::{Scope, is_blank};
pub use ending::terminates;
pub use fault::{Fault, PackageRefusal, Placed, Refusal};
pub use given::{Deferred, Filled, Given, Ranged, Typed};
pub use kinds::{OperandKind, Untyped};
pub use known::Known;
pub use lifo::Lifo;
pub use literal::int_literal;
pub use lookup::{last_named, predeclared};
pub use names::{Binding, Callee, Imported, Marks, Meaning, Names, Shared, Signature, Standard};
pub use operand::{Argument, Operand, Part, Term};
pub use operator::{Operator, binary_kind, operator_of, unary_kind};
pub use package_names::{Declared, declared_in, import_name, imported_of, names_fault};
pub use plain::plain_form;
pub use queue::Queue;
pub use types::{Basic, ValueType};
pub use values::{fill, given as given_values, repeated, type_if, wanted_code, wanted_type};
pub use walk::{Enclosing, Label, Place, Position, Walk};

#[cfg(test)]
mod tests;
