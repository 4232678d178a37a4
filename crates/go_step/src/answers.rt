//! Acts of results.
ghost use Rattle.std.specs.Prelude.{◌≡◌, IfOk};
ghost use Rattle.go_meaning.specs.Operations as operations;

use go_ast::Text;
use go_meaning::{Act, Value};
use go_value::{Int, Kind};
use std::alloc::{AllocError, Global};

/// A panic with a message.
pub fn panics(alloc: Global, message: &[u8]) -> Result<Act, AllocError>
    ensures { IfOk result (λ a. a ≡ Act.Panics message.now) }
{
    Ok(Act::Panics(Text::of(alloc, message)?))
}

/// A value of type `int`.
pub fn number(value: i128) -> Value
    ensures { result ≡ operations.number value }
{
    Value::Number(Int::wrapped(Kind::I64, value))
}
