//! The outside as a program sees it: files, sinks and a gate, in memory and real, and the types that name its parts.
#![tactic(auto)]

mod data_kind;
mod entries;
mod fault;
mod files;
mod gate;
mod host_files;
mod host_sink;
mod limit;
mod memory_files;
mod memory_sink;
mod mode;
mod sequence;
mod sink;
mod stamp;
mod text;
mod whole;
mod whole_write;

pub use data_kind::DataKind;
pub use fault::{Failed, FilesFault, NoMemory};
pub use files::Files;
pub use gate::{Gate, OpenGate};
pub use host_files::HostFiles;
pub use host_sink::HostSink;
pub use limit::Which;
pub use memory_files::MemoryFiles;
pub use memory_sink::MemorySink;
pub use mode::Mode;
pub use sequence::{Sequence, copy_texts};
pub use sink::Sink;
pub use stamp::Stamp;
pub use text::Text;
pub use whole::{WholeFault, read_whole};
pub use whole_write::write_whole;

#[cfg(test)]
mod tests;
