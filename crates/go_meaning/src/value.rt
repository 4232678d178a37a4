//! Values and channels.
use crate::queue::Queue;
use go_ast::Text;
use go_value::Int;

/// A value.
#[derive(Debug, Drop)]
pub enum Value {
    Flag(bool),
    Number(Int),
    Text(Text),
    /// The number of a channel, from 0, or `nil`.
    Channel(Option<u32>),
}

/// A channel.
#[derive(Debug, Drop)]
pub struct Channel {
    pub capacity: u64,
    /// The zero value of its values' type.
    pub zero: Value,
    /// The values that were sent and not yet received, the oldest first.
    pub values: Queue<Value>,
    pub closed: bool,
}
