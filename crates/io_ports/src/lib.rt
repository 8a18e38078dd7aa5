//! What every crate of the mount stands on: byte streams with a count of their faults, and bytes, texts and rows whose growth can be refused.
#![tactic(auto)]

mod bytes;
mod failed;
mod mem_sink;
mod mem_source;
mod memory;
mod row;
mod sink;
mod source;
mod std_sink;
mod std_source;
#[cfg(test)]
mod tests;
mod text;

pub use bytes::Bytes;
pub use failed::Failed;
pub use mem_sink::MemSink;
pub use mem_source::MemSource;
pub use memory::NoMemory;
pub use row::Row;
pub use sink::Sink;
pub use source::Source;
pub use std_sink::StdSink;
pub use std_source::StdSource;
pub use text::Text;
