//! The outside as the host sees it: files by name, a sink of bytes, and a gate that a test may hold shut.
#![tactic(auto)]

mod answers;
mod fault;
mod faults;
mod folder;
mod gate;
mod library;
mod memory_library;
mod memory_sink;
mod output;
mod pieces;
mod sink;

pub use fault::{Failed, FetchFault};
pub use folder::FolderLibrary;
pub use gate::{Gate, OpenGate};
pub use library::Library;
pub use memory_library::MemoryLibrary;
pub use memory_sink::MemorySink;
pub use output::OutputSink;
pub use sink::Sink;
